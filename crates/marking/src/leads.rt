//! Where an edge leads marks.
ghost use Rattle.std.specs.Prelude.{◌≡◌, ℕ, ◌+◌, ◌*◌, ◌<◌};
ghost use Rattle.marking.specs.Leads.{Bounded, at_end, received, touches, fed};
ghost use Rattle.marks.specs.Words.{bit};

use crate::flow::Fed;
use crate::instance::Instance;
use crate::word::single;
use table::questions::{Table, class_of};
use table::record::{Class, Edge, Kind};

/// The location that the edge goes to, by its number among all.
pub fn site_at_end(edge: &Edge) -> u8
    requires { Bounded edge.now }
    ensures { result ≡ 16 * edge.now.process + edge.now.to }
{
    16 * edge.process + edge.to
}

/// The instance with that index where the edge ends.
fn at_end(edge: &Edge, index: u8) -> Instance
    requires { Bounded edge.now }
    ensures { result ≡ at_end edge.now index }
{
    Instance {
        site: site_at_end(edge),
        index,
    }
}

/// The variable that an input stores.
#[tactic(auto, unfolding(crate::specs::Leads::received))]
pub fn received(edge: &Edge) -> Option<Instance>
    requires { Bounded edge.now }
    ensures { result ≡ received edge.now }
{
    match edge.does() {
        Kind::Input => edge.stored().map(|variable| at_end(edge, variable)),
        _ => None,
    }
}

/// The instance that the edge writes, and so does not carry over.
#[tactic(auto, unfolding(crate::specs::Leads::touches))]
pub fn touched(edge: &Edge) -> u16
    ensures value { (b : ℕ) → b < 16 → bit result b ≡ touches edge.now b }
{
    match edge.does() {
        Kind::Input => match edge.stored() {
            Some(variable) => single(variable.into()),
            None => 0,
        },
        Kind::Assignment => single(edge.first.into()),
        Kind::Set | Kind::Reset | Kind::Timeout | Kind::Rearm => single(
            8 + usize::from(edge.first),
        ),
        _ => 0,
    }
}

/// What a marked value of the edge marks: a variable, a timer or an internal signal.
#[tactic(auto, unfolding(crate::specs::Leads::fed))]
pub fn fed<T: Table>(table: &T, edge: &Edge) -> Fed
    requires { Bounded edge.now }
    ensures { result ≡ fed (T.lists table.now) edge.now }
{
    match edge.does() {
        Kind::Assignment => Fed::Instance(at_end(edge, edge.first)),
        Kind::Set => Fed::Instance(at_end(edge, 8 + edge.first)),
        Kind::Output if class_of(table, edge.first) == Class::Internal => Fed::Signal(edge.first),
        _ => Fed::Nothing,
    }
}
