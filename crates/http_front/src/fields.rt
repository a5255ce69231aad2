ghost use Rattle.std.specs.Prelude.{◌≡◌, ℕ, List, ◌∷◌, [], ◌++◌, length, map, codes, All, IsTrue, Ok};
ghost use Rattle.std.specs.Char.{is_ascii_digit};
ghost use Rattle.std.specs.List.{list_all, list_any};
ghost use Rattle.std.specs.Str.{str_eq_ignore_ascii_case};
ghost use Rattle.std.specs.Str.Parse.{digits_value};
ghost use Rattle.httparse.specs.Spans.{IsHeaderWithin, header_bytes};
ghost use Rattle.http_front.specs.Front.{AreValues, IfRefused};
ghost use Rattle.http_front.specs.Head as spec;
ghost use Rattle.http_front.specs.Request.{is_close, closes};

use httparse::spans::HeaderSpan;

const MOST_BODY_BYTES: usize = 262_144;

const MOST_LENGTH_DIGITS: usize = 18;

// The values of all fields of one name.
#[derive(Clone, Copy)]
enum Values<'b> {
    Absent,
    One(&'b [u8]),
    Several,
}

/// The length of the body after a head of these fields, or the status of the refusal.
pub fn body_length(buf: &[u8], headers: &[HeaderSpan]) -> Result<usize, u16>
    requires { All (IsHeaderWithin (length buf.now)) headers.now }
    ensures length { result ≡ spec.body_length (map (header_bytes buf.now) headers.now) }
    ensures status { IfRefused result }
{
    match find_values(buf, headers, b"transfer-encoding") {
        Values::Absent => given_length(find_values(buf, headers, b"content-length")),
        Values::One(_) | Values::Several => Err(501),
    }
}

/// Whether the link closes after the reply to a head of this minor version and these fields.
pub fn closes(buf: &[u8], minor: u8, headers: &[HeaderSpan]) -> bool
    requires { All (IsHeaderWithin (length buf.now)) headers.now }
    ensures { result ≡ closes minor (map (header_bytes buf.now) headers.now) }
{
    minor == 0 || has_close(buf, headers)
}

fn has_close(buf: &[u8], headers: &[HeaderSpan]) -> bool
    requires { All (IsHeaderWithin (length buf.now)) headers.now }
    ensures { result ≡ list_any is_close
        (spec.values_of (codes "connection") (map (header_bytes buf.now) headers.now)) }
{
    let mut found = false;
    for header in headers {
        if is_same_word(header.name.of(buf), b"connection")
            && is_same_word(header.value.of(buf), b"close")
        {
            found = true;
        }
    }
    found
}

fn given_length(values: Values<'_>) -> Result<usize, u16>
    ensures length { (all : List (List ℕ)) → AreValues values.entry all → result ≡ spec.given_length all }
    ensures status { IfRefused result }
{
    match values {
        Values::Absent => Ok(0),
        Values::One(value) => written_length(value),
        Values::Several => Err(400),
    }
}

fn find_values<'b>(buf: &'b [u8], headers: &[HeaderSpan], name: &[u8]) -> Values<'b>
    requires { All (IsHeaderWithin (length buf.now)) headers.now }
    ensures { AreValues result (spec.values_of name.now (map (header_bytes buf.now) headers.now)) }
{
    let mut found = Values::Absent;
    for header in headers {
        if is_same_word(header.name.of(buf), name) {
            found = one_more(found, header.value.of(buf));
        }
    }
    found
}

fn one_more<'b>(found: Values<'b>, value: &'b [u8]) -> Values<'b>
    ensures { (values : List (List ℕ)) → AreValues found.entry values
        → AreValues result (values ++ value.now ∷ []) }
{
    match found {
        Values::Absent => Values::One(value),
        Values::One(_) | Values::Several => Values::Several,
    }
}

fn is_same_word(word: &[u8], other: &[u8]) -> bool
    ensures { result ≡ str_eq_ignore_ascii_case word.now other.now }
{
    word.eq_ignore_ascii_case(other)
}

fn written_length(value: &[u8]) -> Result<usize, u16>
    ensures length { result ≡ spec.written_length value.now }
    ensures status { IfRefused result }
{
    if is_length_text(value) {
        read_number(value)
    } else {
        Err(400)
    }
}

fn is_length_text(value: &[u8]) -> bool
    ensures { result ≡ spec.is_length_text value.now }
{
    !value.is_empty() && value.len() <= MOST_LENGTH_DIGITS && are_digits(value)
}

fn are_digits(value: &[u8]) -> bool
    ensures { result ≡ list_all is_ascii_digit value.now }
{
    value.iter().all(u8::is_ascii_digit)
}

// The number that digits write, where a body may have as many bytes.
fn read_number(digits: &[u8]) -> Result<usize, u16>
    requires { IsTrue (list_all is_ascii_digit digits.now) }
    ensures length { result ≡ spec.bounded_length (digits_value 10 digits.now) }
    ensures status { IfRefused result }
{
    let mut number = 0;
    for digit in digits {
        number = number * 10 + usize::from(*digit - b'0');
        if number > MOST_BODY_BYTES {
            return Err(413);
        }
    }
    Ok(number)
}
