//! Locations, each by its process.
ghost use Rattle.std.specs.Prelude.{◌≡◌, ◌+◌, ◌*◌, ◌<◌, ◌&&◌, IfSome, if◌then◌else◌, nat_lt, slice_index_or};
ghost use Rattle.table.specs.Sites.{index_of};

use crate::limits;
use crate::record::Edge;

/// A location of a process, whether or not there is such a one.
#[derive(Clone, Copy, Debug, PartialEq, Eq)]
pub struct Site {
    pub process: usize,
    pub location: usize,
}

impl Site {
    /// Its place where each location of each process has one: 16 × process + location. None for what no table has.
    pub fn index(self) -> Option<usize>
        ensures value { result ≡ index_of self.process self.location }
        ensures bound { IfSome result (λ i. i < 128) }
    {
        let locations = usize::from(limits::LOCATIONS);
        if self.process < limits::PROCESSES && self.location < locations {
            Some(locations * self.process + self.location)
        } else {
            None
        }
    }

    /// What stands at its place among these; `nothing` where there is none.
    pub fn pick<T: Copy>(self, items: &[T], nothing: T) -> T
        ensures { result ≡ (if nat_lt self.process 8 && nat_lt self.location 16 then slice_index_or items.now (16 * self.process + self.location) nothing else nothing) }
    {
        let found = self.index().and_then(|i| items.get(i));
        found.copied().unwrap_or(nothing)
    }
}

impl Edge {
    /// The location that the edge leaves.
    pub fn start(&self) -> Site
        ensures process { result.process ≡ self.now.process }
        ensures location { result.location ≡ self.now.from }
    {
        Site {
            process: self.process.into(),
            location: self.from.into(),
        }
    }
}
