use std::fmt::Display;
use std::io;
use std::io::Print;

/// A stream that takes just these bytes, in one piece, and refuses any others.
#[derive(Clone, Copy)]
pub(crate) struct Only<'a>(pub(crate) &'a [u8]);

impl Print for Only<'_> {
    fn print<D: Display + Drop>(&self, _value: D) -> io::Result<()> {
        self.write_all(b"")
    }

    fn println<D: Display + Drop>(&self, _value: D) -> io::Result<()> {
        self.write_all(b"")
    }

    fn write_all(&self, bytes: &[u8]) -> io::Result<()> {
        if bytes == self.0 {
            Ok(())
        } else {
            Err(io::Error::from(io::ErrorKind::BrokenPipe))
        }
    }
}
