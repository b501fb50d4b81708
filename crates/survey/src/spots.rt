//! What the edges that leave a location say of it.
ghost use Rattle.std.specs.Prelude.{◌≡◌, length};

/// A location as its edges make it: at first without any.
#[derive(Clone, Copy, Debug, PartialEq, Eq, Default)]
pub struct Spot {
    /// An acting edge leaves it.
    pub acting: bool,
    /// An edge that leaves it has a marked guard.
    pub guard_marked: bool,
    /// Bit n: a timeout or rearm of timer n leaves it.
    pub handled: u16,
}

/// The spot of location l of process p stands at 16 × p + l. A process is chaotic if one of its edges is an input of an
/// inbound signal.
#[derive(Clone, Copy)]
pub struct Survey {
    pub(crate) spots: [Spot; 128],
    pub(crate) chaotic: [bool; 8],
    ghost size: { length spots ≡ 128 },
    ghost eight: { length chaotic ≡ 8 },
}
