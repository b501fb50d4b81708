//! A row of added edges.

use arrayvec::ArrayVec;

/// How many may be wanted: at each of 16 locations of 8 processes one for the chaos timer, and two for each of 8 timers.
pub(crate) const MOST: usize = 2176;

/// A location of a process, by the numbers that an edge has for them.
#[derive(Clone, Copy, Debug, PartialEq, Eq, Default)]
pub struct Place {
    pub process: u8,
    pub location: u8,
}

/// What an added edge does with its timer: it times it out, or rearms it to 1.
#[derive(Clone, Copy, Debug, PartialEq, Eq, Default)]
pub enum Turn {
    #[default]
    Timeout,
    Rearm,
}

/// An added edge, which stays at its place.
#[derive(Clone, Copy, Debug, PartialEq, Eq, Default)]
pub struct Loop {
    pub place: Place,
    pub timer: u8,
    pub turn: Turn,
}

/// All the loops that are wanted, be they more than a table may have edges.
#[derive(Drop)]
pub struct Loops {
    pub(crate) items: ArrayVec<Loop, MOST>,
}
