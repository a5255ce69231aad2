//! Lines of tables, and the words of a program that judges them.
use std::rt::Env;
use std::{env, io};

/// Whether a line is empty or a comment, which begins with `#`.
pub fn is_comment(line: &str) -> bool {
    line.is_empty() || line.starts_with('#')
}

/// The first word behind the program's name: the file of a table that is judged in place of the program's own.
pub fn given_table<R: Env + AllocGlobal>(rt: &R) -> io::Result<Option<String>> {
    for word in env::args(rt)?.skip(1) {
        return Ok(Some(word));
    }
    Ok(None)
}
