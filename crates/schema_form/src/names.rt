//! The names of a schema file, looked for by halves among the entries of its types.
ghost use Rattle.std.specs.Prelude.{◌≡◌};
ghost use Rattle.snap_core.specs.Value.{AreKeyed};
ghost use Rattle.snap_core.specs.View.{fields_view};
ghost use Rattle.schema_form.specs.Names as names;

use crate::form::{EntryNo, Word};
use crate::words::plain_of;
use snap_core::{Field, position};

/// The entry of this name.
pub fn entry_of(types: &[Field], name: &str) -> Option<EntryNo>
    requires { AreKeyed (fields_view types.now) }
    ensures { result ≡ names.entry_of (fields_view types.now) name.now }
{
    match position(types, name) {
        Some(at) => Some(EntryNo(at)),
        None => None,
    }
}

/// What a text stands for as a type; none where it is neither a plain type nor the name of an entry.
pub fn word_of(types: &[Field], text: &str) -> Option<Word>
    requires { AreKeyed (fields_view types.now) }
    ensures { result ≡ names.word_of (fields_view types.now) text.now }
{
    match plain_of(text) {
        Some(plain) => Some(Word::Plain(plain)),
        None => match entry_of(types, text) {
            Some(entry) => Some(Word::Named(entry)),
            None => None,
        },
    }
}
