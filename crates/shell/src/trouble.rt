//! What could not be read or written.

use std::{fmt, io};

/// A file or a stream, by its name, and what went wrong with it.
#[derive(Debug, Drop)]
pub struct Trouble<'a> {
    pub place: &'a str,
    pub error: io::Error,
}

impl fmt::Display for Trouble<'_> {
    fn fmt<W: fmt::Write>(&self, f: &mut fmt::Formatter<W>) -> fmt::Result {
        let Trouble { place, error } = self;
        write!(f, "{place}: {error}")
    }
}
