//! What a run is made of.

/// A message: a signal and the value that it carries.
#[derive(Clone, Copy, Debug, PartialEq, Eq)]
pub struct Message {
    pub signal: u8,
    pub value: i16,
}

/// One step call.
#[derive(Clone, Copy, Debug, PartialEq, Eq)]
pub enum Step {
    /// The surroundings send a signal.
    Offer { signal: u16, value: i16 },
    /// The process of an edge moves along it.
    Move(u16),
    /// A process drops the head of its queue, which no input here takes.
    Discard(u16),
    /// A process turns a timer off that ran out and that no edge here takes.
    Expire { process: u16, timer: u16 },
    /// The tick of the clock.
    Tick,
}
