//! A runtime for the programs that shows what they write: what goes to standard error is marked, and of bytes their number is told.

use std::alloc::Allocator;
use std::fmt::Display;
use std::fs::{Files, Metadata, OpenOptions};
use std::io::{self, BufRead, Lines};
use std::path::PathBuf;

/// With what the program finds on standard input. Its files are those of the folder that the whole runs in.
#[derive(Drop)]
pub(crate) struct Watched<'a> {
    pub(crate) rt: &'a HostRuntime,
    pub(crate) input: &'a [u8],
}

impl Watched<'_> {
    /// Each line of what is written, behind `mark`.
    fn show<D: Display + Drop>(&self, mark: &str, value: D) -> io::Result<()> {
        let text = format!(in self.rt.alloc(); "{value}")?;
        for line in text.as_str().lines() {
            println!(self.rt; "{mark}{line}")?;
        }
        Ok(())
    }
}

impl Print for Watched<'_> {
    fn print<D: Display + Drop>(&self, value: D) -> io::Result<()> {
        self.rt.print(value)
    }

    fn println<D: Display + Drop>(&self, value: D) -> io::Result<()> {
        self.rt.println(value)
    }

    fn write_all(&self, bytes: &[u8]) -> io::Result<()> {
        println!(self.rt; "({} bytes)", bytes.len())
    }
}

impl Eprint for Watched<'_> {
    fn eprint<D: Display + Drop>(&self, value: D) -> io::Result<()> {
        let text = format!(in self.rt.alloc(); "{value}")?;
        self.show("! ", text.as_str())?;
        if !text.as_str().ends_with("\n") {
            println!(self.rt; "(no line feed)")?;
        }
        Ok(())
    }

    fn eprintln<D: Display + Drop>(&self, value: D) -> io::Result<()> {
        self.show("! ", value)
    }
}

impl<'a> Input for Watched<'a> {
    type Reader = &'a [u8];

    fn read_line<A: Allocator + Clone>(&self, buf: &mut String<A>) -> io::Result<usize> {
        self.reader().read_line(buf)
    }

    fn lines<A: Allocator>(&self, alloc: A) -> Lines<&'a [u8], A> {
        self.reader().lines(alloc)
    }

    fn reader(&self) -> &'a [u8] {
        self.input
    }
}

impl Files for Watched<'_> {
    type File = <HostRuntime as Files>::File;

    type Dir = <HostRuntime as Files>::Dir;

    fn open_file(&self, how: &OpenOptions, path: &str) -> io::Result<Self::File> {
        self.rt.open_file(how, path)
    }

    fn open_dir(&self, path: &str) -> io::Result<Self::Dir> {
        self.rt.open_dir(path)
    }

    fn metadata(&self, path: &str) -> io::Result<Metadata> {
        self.rt.metadata(path)
    }

    fn symlink_metadata(&self, path: &str) -> io::Result<Metadata> {
        self.rt.symlink_metadata(path)
    }

    fn copy(&self, from: &str, to: &str) -> io::Result<u64> {
        self.rt.copy(from, to)
    }

    fn rename(&self, from: &str, to: &str) -> io::Result<()> {
        self.rt.rename(from, to)
    }

    fn remove_file(&self, path: &str) -> io::Result<()> {
        self.rt.remove_file(path)
    }

    fn create_dir(&self, path: &str) -> io::Result<()> {
        self.rt.create_dir(path)
    }

    fn remove_dir(&self, path: &str) -> io::Result<()> {
        self.rt.remove_dir(path)
    }

    fn remove_dir_all<B: Allocator>(&self, alloc: B, path: &str) -> io::Result<()> {
        self.rt.remove_dir_all(alloc, path)
    }

    fn canonicalize<B: Allocator>(&self, alloc: B, path: &str) -> io::Result<PathBuf<B>> {
        self.rt.canonicalize(alloc, path)
    }
}
