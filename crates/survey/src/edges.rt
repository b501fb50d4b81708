//! The survey of a table: one pass over its edges.
ghost use Rattle.std.specs.Prelude.{◌≡◌, ℕ, false};
ghost use Rattle.marks.specs.Words.{marking};
ghost use Rattle.rules.specs.Closing.{invites, marked_guard};
ghost use Rattle.survey.specs.Surveys.{nowhere, spot_at, chaotic_at, turned, noted_spot, noted_spots, noted_chaos, Surveyed};

use crate::marked::is_marked;
use crate::spots::{Spot, Survey};
use marks::marks::Marks;
use table::limits;
use table::questions::{Table, class_of};
use table::record::{Class, Edge, Kind, Mode};
use table::site::Site;

impl Survey {
    fn blank() -> Self
        ensures spots { (p l : ℕ) → spot_at result.spots p l ≡ nowhere }
        ensures chaotic { (p : ℕ) → chaotic_at result.chaotic p ≡ false }
    {
        Survey {
            spots: [Spot::default(); 128],
            chaotic: [false; 8],
        }
    }

    /// What is known of a location; nothing where it cannot be.
    #[tactic(auto, unfolding(crate::specs::Surveys::spot_at))]
    pub fn spot(&self, site: Site) -> Spot
        ensures { result ≡ spot_at self.now.spots site.process site.location }
    {
        site.pick(&self.spots, Spot::default())
    }

    /// Whether the process gains a chaos timer.
    #[tactic(auto, unfolding(crate::specs::Surveys::chaotic_at))]
    pub fn is_chaotic(&self, process: usize) -> bool
        ensures { result ≡ chaotic_at self.now.chaotic process }
    {
        self.chaotic.get(process).copied().unwrap_or(false)
    }

    /// Notes what an edge says of where it begins.
    #[tactic(auto, unfolding(crate::specs::Surveys::noted_spots))]
    fn note(&mut self, edge: &Edge, guard_marked: bool)
        ensures spots { self.new.spots ≡ noted_spots guard_marked edge.now self.old.spots }
        ensures same { self.new.chaotic ≡ self.old.chaotic }
    {
        if let Some(i) = edge.start().index() {
            self.spots[i] = self.spots[i].with(edge, guard_marked);
        }
    }

    /// Notes that the edge's process is chaotic, if the edge is an input of an inbound signal.
    #[tactic(auto, unfolding(crate::specs::Surveys::noted_chaos))]
    fn note_chaos(&mut self, edge: &Edge, invites: bool)
        ensures chaotic { self.new.chaotic ≡ noted_chaos invites edge.now self.old.chaotic }
        ensures same { self.new.spots ≡ self.old.spots }
    {
        let process = usize::from(edge.process);
        if invites && process < limits::PROCESSES {
            self.chaotic[process] = true;
        }
    }
}

impl Spot {
    /// The spot with what one more edge says of it.
    fn with(self, edge: &Edge, guard_marked: bool) -> Spot
        ensures { result ≡ noted_spot guard_marked edge.now self }
    {
        Spot {
            acting: self.acting || edge.acts(),
            guard_marked: self.guard_marked || guard_marked,
            handled: self.handled | turned(edge),
        }
    }
}

/// The bit of the timer that the edge times out or rearms.
fn turned(edge: &Edge) -> u16
    ensures { result ≡ turned edge.now }
{
    match edge.does() {
        Kind::Timeout | Kind::Rearm if edge.first < limits::TIMERS => 1 << edge.first,
        _ => 0,
    }
}

/// Whether the edge has a guard, and that is marked.
fn has_marked_guard<T: Table>(table: &T, marks: &Marks, edge: &Edge) -> bool
    ensures { result ≡ marked_guard (T.lists table.now) (marking marks.now) edge.now }
{
    edge.guarded() == Mode::Expression && is_marked(table, marks, edge, edge.guard)
}

/// Whether the edge is an input of an inbound signal.
fn is_inviting<T: Table>(table: &T, edge: &Edge) -> bool
    ensures { result ≡ invites (T.lists table.now) edge.now }
{
    edge.does() == Kind::Input && class_of(table, edge.first) == Class::Inbound
}

/// What the edges of the table say, under the marks.
#[tactic(auto, using(crate::proofs::Noting::seeing))]
pub fn survey<T: Table>(table: &T, marks: &Marks) -> Survey
    ensures { Surveyed (T.lists table.now) (marking marks.now) (T.lists table.now).edges result.spots result.chaotic }
{
    let mut seen = Survey::blank();
    for k in 0..table.edge_count() {
        if let Some(edge) = table.edge(k) {
            seen.note(&edge, has_marked_guard(table, marks, &edge));
            seen.note_chaos(&edge, is_inviting(table, &edge));
        }
    }
    seen
}
