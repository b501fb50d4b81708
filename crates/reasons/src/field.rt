//! The fields of a sheet, and which of them lies at a bit.
ghost use Rattle.std.specs.Prelude.{◌<◌, ◌≤◌};

use reading::reader::Reader;
use reading::records::{EDGE_BITS, HEADER_BITS, SIGNAL_BITS, TERM_BITS};
use std::fmt;
use table::limits;

/// The owner of a name.
#[derive(Clone, Copy)]
pub enum Owner {
    Process(usize),
    Signal(usize),
}

impl fmt::Display for Owner {
    fn fmt<W: fmt::Write>(&self, f: &mut fmt::Formatter<W>) -> fmt::Result {
        match self {
            Owner::Process(p) => write!(f, "process {p}"),
            Owner::Signal(s) => write!(f, "signal {s}"),
        }
    }
}

#[derive(Clone, Copy)]
pub enum Field {
    Version,
    Processes,
    Signals,
    Edges,
    Terms,
    Locations(usize),
    Variables(usize),
    Timers(usize),
    First(usize),
    Variable { process: usize, variable: usize },
    Timer { process: usize, timer: usize },
    Class(usize),
    Destination(usize),
    Edge(usize, EdgeField),
    Operation(usize),
    Argument(usize),
    Fill,
    Length(Owner),
    Character(Owner),
    /// Behind the last name.
    End,
}

#[derive(Clone, Copy)]
pub enum EdgeField {
    Process,
    From,
    To,
    Kind,
    First,
    Second,
    Mode,
    GuardStart,
    GuardCount,
    ValueStart,
    ValueCount,
}

impl fmt::Display for EdgeField {
    fn fmt<W: fmt::Write>(&self, f: &mut fmt::Formatter<W>) -> fmt::Result {
        let name = match self {
            EdgeField::Process => "process",
            EdgeField::From => "from location",
            EdgeField::To => "to location",
            EdgeField::Kind => "kind",
            EdgeField::First => "first field",
            EdgeField::Second => "second field",
            EdgeField::Mode => "mode",
            EdgeField::GuardStart => "guard start",
            EdgeField::GuardCount => "guard count",
            EdgeField::ValueStart => "value start",
            EdgeField::ValueCount => "value count",
        };
        write!(f, "{name}")
    }
}

impl fmt::Display for Field {
    fn fmt<W: fmt::Write>(&self, f: &mut fmt::Formatter<W>) -> fmt::Result {
        match self {
            Field::Version => write!(f, "version"),
            Field::Processes => write!(f, "process count"),
            Field::Signals => write!(f, "signal count"),
            Field::Edges => write!(f, "edge count"),
            Field::Terms => write!(f, "term count"),
            Field::Locations(p) => write!(f, "location count of process {p}"),
            Field::Variables(p) => write!(f, "variable count of process {p}"),
            Field::Timers(p) => write!(f, "timer count of process {p}"),
            Field::First(p) => write!(f, "first location of process {p}"),
            Field::Variable { process, variable } => {
                write!(f, "variable x{variable} of process {process}")
            }
            Field::Timer { process, timer } => write!(f, "timer t{timer} of process {process}"),
            Field::Class(s) => write!(f, "class of signal {s}"),
            Field::Destination(s) => write!(f, "destination of signal {s}"),
            Field::Edge(k, field) => write!(f, "{field} of edge {k}"),
            Field::Operation(i) => write!(f, "operation of term {i}"),
            Field::Argument(i) => write!(f, "argument of term {i}"),
            Field::Fill => write!(f, "fill"),
            Field::Length(owner) | Field::Character(owner) => write!(f, "name of {owner}"),
            Field::End => write!(f, "behind the last name"),
        }
    }
}

/// The number that so many bits write from this bit on, or 0 where some are missing.
pub fn number_at(bytes: &[u8], bit: usize, width: usize) -> u16
    requires { width ≤ 16 }
{
    let bit = bit.min(u32::MAX as usize);
    Reader::at(bytes, bit).take(width).unwrap_or(0)
}

/// The field in which the bit lies, where the bits before that field are good.
pub fn field_at(bytes: &[u8], bit: usize) -> Field {
    let mut reader = Reader::at(bytes, 0);
    let Ok(counts) = reader.header() else {
        return header_field(bit);
    };
    let mut places = [0; limits::PROCESSES];
    if reader.processes(counts.processes, &mut places).is_err() {
        return process_field(bytes, &places, bit);
    }
    let start = reader.place;
    if reader.signals(counts.signals, counts.processes).is_err() {
        return signal_field(bit.saturating_sub(start));
    }
    let start = reader.place;
    if reader.edges(counts.edges).is_err() {
        return edge_field(bit.saturating_sub(start));
    }
    let start = reader.place;
    if reader.terms(counts.terms).is_err() {
        return term_field(bit.saturating_sub(start));
    }
    if reader.fill().is_err() {
        return Field::Fill;
    }
    let start = reader.place / 8;
    let names = usize::from(counts.processes) + usize::from(counts.signals);
    if reader.names(names).is_err() {
        return name_field(bytes, start, usize::from(counts.processes), bit / 8);
    }
    Field::End
}

fn header_field(bit: usize) -> Field {
    match bit {
        0..8 => Field::Version,
        8..12 => Field::Processes,
        12..19 => Field::Signals,
        19..31 => Field::Edges,
        _ => Field::Terms,
    }
}

/// In the last process that begins at one of these places, of which those that are not known are 0.
fn process_field(bytes: &[u8], places: &[u32], bit: usize) -> Field {
    let begun = places.iter().filter(|place| **place != 0).count();
    let process = begun.saturating_sub(1);
    let start = places.get(process).copied().unwrap_or(0) as usize;
    let offset = bit.saturating_sub(start);
    match offset {
        0..4 => Field::Locations(process),
        4..8 => Field::Variables(process),
        8..12 => Field::Timers(process),
        12..16 => Field::First(process),
        _ => {
            let word = offset / 16 - 1;
            let variables = usize::from(number_at(bytes, start + 4, 4));
            if word < variables {
                Field::Variable {
                    process,
                    variable: word,
                }
            } else {
                Field::Timer {
                    process,
                    timer: word - variables,
                }
            }
        }
    }
}

/// So far behind the first bit of the signals.
fn signal_field(offset: usize) -> Field {
    let signal = offset / SIGNAL_BITS;
    if offset % SIGNAL_BITS < 3 {
        Field::Class(signal)
    } else {
        Field::Destination(signal)
    }
}

/// So far behind the first bit of the edges.
fn edge_field(offset: usize) -> Field {
    let field = match offset % EDGE_BITS {
        0..3 => EdgeField::Process,
        3..7 => EdgeField::From,
        7..11 => EdgeField::To,
        11..14 => EdgeField::Kind,
        14..20 => EdgeField::First,
        20..24 => EdgeField::Second,
        24..26 => EdgeField::Mode,
        26..38 => EdgeField::GuardStart,
        38..43 => EdgeField::GuardCount,
        43..55 => EdgeField::ValueStart,
        _ => EdgeField::ValueCount,
    };
    Field::Edge(offset / EDGE_BITS, field)
}

/// So far behind the first bit of the terms.
fn term_field(offset: usize) -> Field {
    let term = offset / TERM_BITS;
    if offset % TERM_BITS < 4 {
        Field::Operation(term)
    } else {
        Field::Argument(term)
    }
}

/// Of the names, the length of the first of which is byte `start`, that in which the byte lies.
fn name_field(bytes: &[u8], start: usize, processes: usize, byte: usize) -> Field {
    let mut at = start;
    let mut name = 0;
    for k in 0..limits::PROCESSES + limits::SIGNALS {
        let next = at.saturating_add(1 + name_length(bytes, at));
        name = k;
        if byte < next {
            break;
        }
        at = next;
    }
    let owner = if name < processes {
        Owner::Process(name)
    } else {
        Owner::Signal(name - processes)
    };
    if byte <= at {
        Field::Length(owner)
    } else {
        Field::Character(owner)
    }
}

fn name_length(bytes: &[u8], at: usize) -> usize
    ensures { result < 256 }
{
    usize::from(Reader::at(bytes, 0).byte(at))
}
