//! What is wrong with an edge.
ghost use Rattle.std.specs.Prelude.{◌≡◌};
ghost use Rattle.reasons.specs.Flaws.{flaw_number};

/// The numbers are those of the edge, or of the signal, that are wrong.
#[derive(Clone, Copy, Debug, PartialEq, Eq)]
pub enum Flaw {
    NoProcess(u8),
    NoLocation(u8),
    NoSignal(u8),
    NoVariable(u8),
    NoTimer(u8),
    /// The signal of an input is neither internal nor inbound.
    NotTaken(u8),
    /// The signal of an input goes to another process.
    Elsewhere { signal: u8, destination: u8 },
    /// The signal of an output is neither internal nor outbound.
    NotGiven(u8),
    UnknownKind(u8),
    HighRearm(u8),
    /// The first or the second field holds this, and the kind uses none.
    UnusedFirst(u8),
    UnusedSecond(u8),
    UnknownMode(u8),
    /// The kind has no guard, and the mode is that of one.
    Guarded(u8),
    /// The guard has a start or a count, and the mode none.
    UnusedGuard,
    /// The value has a start or a count, and the kind none.
    UnusedValue,
    /// The value has this start and no terms.
    ValueStart(u16),
    Guard(Wrong),
    Value(Wrong),
}

/// What is wrong with an expression. A term is given by its number in the term list.
#[derive(Clone, Copy, Debug, PartialEq, Eq)]
pub enum Wrong {
    /// It has so many terms.
    Count(u8),
    /// It does not end within the term list.
    Beyond,
    Unknown { term: usize, operation: u8 },
    NoVariable { term: usize, variable: i16 },
    /// The operation has no argument, and this is there.
    Argument { term: usize, argument: i16 },
    /// The operation takes more values than there are.
    Lacking(usize),
    /// So many values are left at the end.
    Left(usize),
}

impl Flaw {
    /// The number that an edge is refused with.
    pub fn number(&self) -> u8
        ensures { result ≡ flaw_number self.now }
    {
        match self {
            Flaw::NoProcess(_)
            | Flaw::NoLocation(_)
            | Flaw::NoSignal(_)
            | Flaw::NoVariable(_)
            | Flaw::NoTimer(_) => 7,
            Flaw::NotTaken(_) | Flaw::Elsewhere { .. } | Flaw::NotGiven(_) => 8,
            Flaw::Guard(_) | Flaw::Value(_) => 9,
            _ => 10,
        }
    }
}
