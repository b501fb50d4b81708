//! What an edge does to marks, worked out once.
ghost use Rattle.std.specs.Prelude.{◌≡◌, ℕ, ◌<◌, ◌&&◌, nat_lt};
ghost use Rattle.marking.specs.Flows.{Stands};
ghost use Rattle.marking.specs.Leads.{Bounded};
ghost use Rattle.marks.specs.Words.{bit};
ghost use Rattle.table.specs.Expressions.{mentions, names, part, reads, suits};
ghost use Rattle.table.specs.declared.record.Operation.TheVariants.{Variable};

use crate::instance::Instance;
use crate::leads::{fed, received, site_at_end, touched};
use crate::word::single;
use table::questions::Table;
use table::record::{Edge, Operation, Span, Term};

/// What a marked value marks.
#[derive(Clone, Copy)]
pub enum Fed {
    Nothing,
    Instance(Instance),
    Signal(u8),
}

/// An edge as it leads from marks to marks.
#[derive(Clone, Copy)]
pub struct Flow {
    /// The location that it goes to: 16 * process + location.
    pub to: u8,
    /// The variables and timers that it leaves as they are.
    pub kept: u16,
    /// The variables that its value mentions.
    pub read: u16,
    /// What a marked value marks.
    pub fed: Fed,
    /// What it stores of a signal.
    pub stored: Option<Instance>,
}

impl Flow {
    pub const NONE: Flow = Flow {
        to: 0,
        kept: 0,
        read: 0,
        fed: Fed::Nothing,
        stored: None,
    };

    pub fn of<T: Table>(table: &T, edge: &Edge) -> Self
        requires { Bounded edge.now }
        ensures { Stands (T.lists table.now) edge.now result }
    {
        Flow {
            to: site_at_end(edge),
            kept: !touched(edge),
            read: mentioned(table, edge.value),
            fed: fed(table, edge),
            stored: received(edge),
        }
    }
}

/// Whether a variable can have the number.
fn is_variable(number: i16) -> bool
    ensures { result ≡ suits 8 Variable number }
{
    (0..8).contains(&number)
}

/// The bit of the variable that has the number, if one has.
fn variable(number: i16) -> u16
    ensures { (b : ℕ) → b < 16 → bit result b ≡ (nat_lt b 8 && names b number) }
{
    if is_variable(number) {
        single(number as usize)
    } else {
        0
    }
}

/// The bit of the variable that the term reads, if it reads one.
fn read_by(term: Term) -> u16
    ensures { (b : ℕ) → b < 16 → bit result b ≡ (nat_lt b 8 && reads b term) }
{
    match term.does() {
        Operation::Variable => variable(term.argument),
        _ => 0,
    }
}

/// The variables that the expression mentions, each by its bit.
fn mentioned<T: Table>(table: &T, span: Span) -> u16
    ensures { (b : ℕ) → b < 16 → bit result b ≡ (nat_lt b 8 && mentions (part (T.lists table.now).terms span) b) }
{
    let mut all = 0;
    let start = usize::from(span.start);
    for i in start..start + usize::from(span.count) {
        let Some(term) = table.term(i) else {
            break;
        };
        all |= read_by(term);
    }
    all
}
