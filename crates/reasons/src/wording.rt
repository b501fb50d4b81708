//! How processes, signals, kinds and the flaws of edges are told.
use crate::field::Owner;
use crate::flaw::{Flaw, Wrong};
use std::fmt;
use table::record::{Class, Kind};

/// A process or a signal, by its name where it is known, and by its number where it is not.
#[derive(Clone, Copy)]
pub enum Named<'a> {
    Name(&'a [u8]),
    Number(Owner),
}

impl fmt::Display for Named<'_> {
    fn fmt<W: fmt::Write>(&self, f: &mut fmt::Formatter<W>) -> fmt::Result {
        match self {
            Named::Name(characters) => {
                for byte in *characters {
                    let character = char::from(*byte);
                    write!(f, "{character}")?;
                }
                Ok(())
            }
            Named::Number(owner) => write!(f, "{owner}"),
        }
    }
}

pub fn kind_name(kind: Kind) -> &'static str {
    match kind {
        Kind::Input => "input",
        Kind::Output => "output",
        Kind::Assignment => "assignment",
        Kind::Set => "set",
        Kind::Reset => "reset",
        Kind::Timeout => "timeout",
        Kind::Rearm => "rearm",
        Kind::Skip => "skip",
        Kind::Unknown => "unknown kind",
    }
}

/// The kind with its article.
fn kind_phrase(kind: Kind) -> &'static str {
    match kind {
        Kind::Input => "an input",
        Kind::Output => "an output",
        Kind::Assignment => "an assignment",
        Kind::Set => "a set",
        Kind::Reset => "a reset",
        Kind::Timeout => "a timeout",
        Kind::Rearm => "a rearm",
        Kind::Skip => "a skip",
        Kind::Unknown => "an unknown kind",
    }
}

pub fn class_phrase(class: Class) -> &'static str {
    match class {
        Class::Internal => "internal",
        Class::Inbound => "inbound",
        Class::Outbound => "outbound",
        Class::Absent => "absent",
        Class::Unknown => "of an unknown class",
    }
}

/// A flaw with what else is told of it: the kind of the edge, its process, its signal with class and destination, and how many terms
/// the term list has.
#[derive(Clone, Copy)]
pub struct FlawTold<'a> {
    pub flaw: Flaw,
    pub kind: Kind,
    pub process: Named<'a>,
    pub signal: Named<'a>,
    pub class: Class,
    pub destination: Named<'a>,
    pub terms: usize,
}

impl fmt::Display for FlawTold<'_> {
    fn fmt<W: fmt::Write>(&self, f: &mut fmt::Formatter<W>) -> fmt::Result {
        let process = &self.process;
        let signal = &self.signal;
        let destination = &self.destination;
        let kind = kind_phrase(self.kind);
        let class = class_phrase(self.class);
        match &self.flaw {
            Flaw::NoProcess(p) => write!(f, "there is no process {p}"),
            Flaw::NoLocation(l) => write!(f, "{process} has no location {l}"),
            Flaw::NoSignal(s) => write!(f, "there is no signal {s}"),
            Flaw::NoVariable(v) => write!(f, "{process} has no variable x{v}"),
            Flaw::NoTimer(t) => write!(f, "{process} has no timer t{t}"),
            Flaw::NotTaken(_) => write!(f, "{signal} is {class}, which no input takes"),
            Flaw::Elsewhere { .. } => write!(f, "{signal} goes to {destination}, not {process}"),
            Flaw::NotGiven(_) => write!(f, "{signal} is {class}, which no output gives"),
            Flaw::UnknownKind(k) => write!(f, "kind {k}, where 0 to 7 are known"),
            Flaw::HighRearm(n) => write!(f, "rearm number {n}, where 0 to 15 can be"),
            Flaw::UnusedFirst(n) => write!(f, "{kind} uses no first field, and {n} is there"),
            Flaw::UnusedSecond(n) => write!(f, "{kind} uses no second field, and {n} is there"),
            Flaw::UnknownMode(m) => write!(f, "mode {m}, where 0 to 2 are known"),
            Flaw::Guarded(m) => write!(f, "{kind} has no guard, and its mode is {m}"),
            Flaw::UnusedGuard => write!(
                f,
                "guard start and guard count have to be 0 without an expression"
            ),
            Flaw::UnusedValue => write!(
                f,
                "value start and value count have to be 0, since {kind} has no value"
            ),
            Flaw::ValueStart(n) => write!(f, "value start {n}, where a value of no terms has 0"),
            Flaw::Guard(wrong) => self.write_wrong(f, "guard", wrong),
            Flaw::Value(wrong) => self.write_wrong(f, "value", wrong),
        }
    }
}

impl FlawTold<'_> {
    /// What is wrong with the guard or the value.
    fn write_wrong<W: fmt::Write>(
        &self,
        f: &mut fmt::Formatter<W>,
        part: &'static str,
        wrong: &Wrong,
    ) -> fmt::Result {
        let process = &self.process;
        let terms = self.terms;
        match wrong {
            Wrong::Count(0) => write!(f, "its {part} has no terms, where 1 to 16 can be"),
            Wrong::Count(n) => write!(f, "its {part} has {n} terms, where 16 is the most"),
            Wrong::Beyond => write!(f, "its {part} reaches beyond the {terms} terms"),
            Wrong::Unknown { term, operation } => {
                write!(
                    f,
                    "term {term}, in its {part}, has the unknown operation {operation}"
                )
            }
            Wrong::NoVariable { term, variable } => {
                write!(
                    f,
                    "term {term}, in its {part}, reads x{variable}, and {process} has no variable x{variable}"
                )
            }
            Wrong::Argument { term, argument } => {
                write!(
                    f,
                    "term {term}, in its {part}, uses no argument, and {argument} is there"
                )
            }
            Wrong::Lacking(term) => write!(f, "term {term}, in its {part}, lacks an operand"),
            Wrong::Left(n) => write!(f, "its {part} leaves {n} values, where 1 has to be left"),
        }
    }
}
