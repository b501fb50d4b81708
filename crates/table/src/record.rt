//! The plain records of a table. Their numbers are as wide as the code's, so that a wrong record can be handed in and refused.
ghost use Rattle.std.specs.Prelude.{◌≡◌};
ghost use Rattle.table.specs.Edges.{absent, blank};
ghost use Rattle.table.specs.Lists.{meant};
ghost use Rattle.table.specs.Records.{kind_of, class_of, mode_of, operation_of};

/// A timer: off, or on with so many ticks to go.
#[derive(Clone, Copy, Debug, PartialEq, Eq)]
pub enum Timer {
    Off,
    On(u16),
}

/// A process. What stands in the arrays beyond the counts means nothing.
#[derive(Clone, Copy)]
pub struct Process {
    pub locations: u8,
    pub first: u8,
    pub variables: u8,
    pub timers: u8,
    pub values: [i16; 8],
    pub settings: [Timer; 8],
}

#[derive(Clone, Copy, Debug, PartialEq, Eq)]
pub struct Signal {
    pub class: u8,
    pub destination: u8,
}

/// A part of the term list.
#[derive(Clone, Copy, Debug, PartialEq, Eq, Default)]
pub struct Span {
    pub start: u16,
    pub count: u8,
}

#[derive(Clone, Copy, Debug, PartialEq, Eq, Default)]
pub struct Edge {
    pub process: u8,
    pub from: u8,
    pub to: u8,
    pub kind: u8,
    pub first: u8,
    pub second: u8,
    pub mode: u8,
    pub guard: Span,
    pub value: Span,
}

#[derive(Clone, Copy, Debug, PartialEq, Eq, Default)]
pub struct Term {
    pub operation: u8,
    pub argument: i16,
}

/// What an edge does.
#[derive(Clone, Copy, Debug, PartialEq, Eq)]
pub enum Kind {
    Input,
    Output,
    Assignment,
    Set,
    Reset,
    Timeout,
    Rearm,
    Skip,
    Unknown,
}

/// Where a signal comes from and goes to.
#[derive(Clone, Copy, Debug, PartialEq, Eq)]
pub enum Class {
    Internal,
    Inbound,
    Outbound,
    Absent,
    Unknown,
}

/// When an edge may be taken.
#[derive(Clone, Copy, Debug, PartialEq, Eq)]
pub enum Mode {
    Unguarded,
    Expression,
    Else,
    Unknown,
}

/// What a term of a postfix expression does.
#[derive(Clone, Copy, Debug, PartialEq, Eq)]
pub enum Operation {
    Number,
    Variable,
    Sum,
    Difference,
    Equal,
    Less,
    Both,
    Not,
    Unknown,
}

impl Process {
    /// A process that is not there: no location, no variable, no timer.
    pub const BLANK: Process = Process {
        locations: 0,
        first: 0,
        variables: 0,
        timers: 0,
        values: [0; 8],
        settings: [Timer::Off; 8],
    };
}

impl Default for Process {
    fn default() -> Process
        ensures value { result ≡ Process.BLANK }
        ensures meaning { meant result ≡ blank }
    {
        Process::BLANK
    }
}

impl Default for Signal {
    fn default() -> Signal
        ensures { result ≡ absent }
    {
        Signal::ABSENT
    }
}

impl From<u8> for Operation {
    ghost from_gives = { λ n o. o ≡ operation_of n };

    fn from(number: u8) -> Operation {
        match number {
            0 => Operation::Number,
            1 => Operation::Variable,
            2 => Operation::Sum,
            3 => Operation::Difference,
            4 => Operation::Equal,
            5 => Operation::Less,
            6 => Operation::Both,
            7 => Operation::Not,
            _ => Operation::Unknown,
        }
    }
}

impl From<u8> for Kind {
    ghost from_gives = { λ n k. k ≡ kind_of n };

    fn from(number: u8) -> Kind {
        match number {
            0 => Kind::Input,
            1 => Kind::Output,
            2 => Kind::Assignment,
            3 => Kind::Set,
            4 => Kind::Reset,
            5 => Kind::Timeout,
            6 => Kind::Rearm,
            7 => Kind::Skip,
            _ => Kind::Unknown,
        }
    }
}

impl From<u8> for Mode {
    ghost from_gives = { λ n m. m ≡ mode_of n };

    fn from(number: u8) -> Mode {
        match number {
            0 => Mode::Unguarded,
            1 => Mode::Expression,
            2 => Mode::Else,
            _ => Mode::Unknown,
        }
    }
}

impl From<u8> for Class {
    ghost from_gives = { λ n c. c ≡ class_of n };

    fn from(number: u8) -> Class {
        match number {
            0 => Class::Internal,
            1 => Class::Inbound,
            2 => Class::Outbound,
            3 => Class::Absent,
            _ => Class::Unknown,
        }
    }
}

impl Term {
    pub fn does(&self) -> Operation
        ensures { result ≡ operation_of self.now.operation }
    {
        self.operation.into()
    }
}

impl Edge {
    pub fn does(&self) -> Kind
        ensures { result ≡ kind_of self.now.kind }
    {
        self.kind.into()
    }

    pub fn guarded(&self) -> Mode
        ensures { result ≡ mode_of self.now.mode }
    {
        self.mode.into()
    }
}

impl Signal {
    pub const ABSENT: Signal = Signal {
        class: Class::Absent as u8,
        destination: 0,
    };

    pub fn is(&self) -> Class
        ensures { result ≡ class_of self.now.class }
    {
        self.class.into()
    }
}
