//! Why something is refused, for people.
use crate::field::Field;
use crate::wording::{FlawTold, class_phrase};
use refusal::fault::Layer;
use std::fmt;
use table::record::Class;

#[derive(Clone, Copy)]
pub enum Reason<'a> {
    Field(Fault),
    Flaw(FlawTold<'a>),
    Mixed { acting: usize, waiting: usize },
    Stuck,
    NinthTimer,
    ManyEdges(usize),
    Short(usize),
    /// What is said of a refusal where no more is known.
    General(&'static str),
    Unknown { number: u8, layer: Layer },
}

/// What is wrong with a field of a sheet. The numbers are what the field holds.
#[derive(Clone, Copy)]
pub enum Fault {
    Cut,
    Version(u16),
    Beyond(Beyond),
    Fill(u16),
    OffTimer(u16),
    NoDestination { value: u16, class: Class },
    /// At this byte the sheet should end.
    Surplus(usize),
    Length(u16),
    Character(u16),
}

/// A field that holds another number than can be there, and the least and the most that can.
#[derive(Clone, Copy)]
pub struct Beyond {
    pub field: Field,
    pub value: u16,
    pub least: u16,
    pub most: u16,
}

impl fmt::Display for Beyond {
    fn fmt<W: fmt::Write>(&self, f: &mut fmt::Formatter<W>) -> fmt::Result {
        let Beyond {
            field,
            value,
            least,
            most,
        } = self;
        match field {
            Field::Processes => write!(f, "{value} processes")?,
            Field::Signals => write!(f, "{value} signals")?,
            Field::Edges => write!(f, "{value} edges")?,
            Field::Terms => write!(f, "{value} terms")?,
            Field::Variables(_) => write!(f, "{value} variables")?,
            Field::Timers(_) => write!(f, "{value} timers")?,
            Field::First(_) => write!(f, "location {value}")?,
            Field::Class(_) => write!(f, "class {value}")?,
            Field::Destination(_) => write!(f, "process {value}")?,
            _ => write!(f, "{value}")?,
        }
        write!(f, ", where {least} to {most} can be")
    }
}

impl fmt::Display for Fault {
    fn fmt<W: fmt::Write>(&self, f: &mut fmt::Formatter<W>) -> fmt::Result {
        match self {
            Fault::Cut => write!(f, "the sheet ends before this field does"),
            Fault::Version(n) => write!(f, "version {n}, where only 1 is known"),
            Fault::Beyond(beyond) => write!(f, "{beyond}"),
            Fault::Fill(n) => write!(f, "{n}, where 0 has to fill the byte"),
            Fault::OffTimer(n) => write!(f, "number {n}, where a timer that is off has 0"),
            Fault::NoDestination { value, class } => {
                let class = class_phrase(*class);
                write!(f, "process {value}, where a signal that is {class} has 0")
            }
            Fault::Surplus(byte) => write!(f, "the sheet should end here, at byte {byte}"),
            Fault::Length(n) => write!(f, "a length of {n}, where 1 to 15 can be"),
            Fault::Character(n) => write!(f, "character {n}, where 33 to 126 can be"),
        }
    }
}

impl fmt::Display for Reason<'_> {
    fn fmt<W: fmt::Write>(&self, f: &mut fmt::Formatter<W>) -> fmt::Result {
        match self {
            Reason::Field(fault) => write!(f, "{fault}"),
            Reason::Flaw(flaw) => write!(f, "{flaw}"),
            Reason::Mixed { acting, waiting } => write!(
                f,
                "edge {acting}, which acts, and edge {waiting}, which waits, leave it"
            ),
            Reason::Stuck => write!(f, "acting, and none of its edges is unguarded or else"),
            Reason::NinthTimer => write!(
                f,
                "has 8 timers already and would need a chaos timer more"
            ),
            Reason::ManyEdges(n) => write!(f, "{n} edges, where 2048 is the most"),
            Reason::Short(n) => write!(f, "too short for the sheet, which takes {n} bytes"),
            Reason::General(text) => write!(f, "{text}"),
            Reason::Unknown { number, layer } => {
                write!(f, "refusal {number} of layer {layer} is not known")
            }
        }
    }
}
