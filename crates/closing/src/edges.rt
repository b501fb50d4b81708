//! What becomes of an edge of the table below.
ghost use Rattle.std.specs.Prelude.{◌≡◌, false};
ghost use Rattle.closing.specs.Layers.{timers_in, freed_in, fate_in, edge_in};
ghost use Rattle.rules.specs.Closing.{waits, skipped, emptied, changed};

use crate::plan::Plan;
use survey::marked::is_marked;
use table::questions::{Table, class_of};
use table::record::{Class, Edge, Kind, Mode, Span};

/// An input that waits for chaos: a rearm to 0 of its process's chaos timer.
fn waiting(edge: &Edge, timer: u8) -> Edge
    ensures { result ≡ changed waits false timer edge.now }
{
    Edge {
        kind: Kind::Rearm as u8,
        first: timer,
        second: 0,
        value: Span::default(),
        ..*edge
    }
}

fn skipped(edge: &Edge) -> Edge
    ensures { result ≡ changed skipped false 0 edge.now }
{
    Edge {
        kind: Kind::Skip as u8,
        first: 0,
        second: 0,
        value: Span::default(),
        ..*edge
    }
}

fn emptied(edge: &Edge) -> Edge
    ensures { result ≡ changed emptied false 0 edge.now }
{
    Edge {
        value: Span::default(),
        ..*edge
    }
}

impl Plan {
    /// How many timers the process has of its own: the number of its chaos timer.
    pub(crate) fn timers_of(&self, process: usize) -> u8
        ensures { result ≡ timers_in self.now process }
    {
        self.timers.get(process).copied().unwrap_or(0)
    }

    /// The edge with its move changed, its guard as it was.
    fn change<T: Table>(&self, table: &T, edge: &Edge) -> Edge
        ensures { result ≡ changed (fate_in self.now (T.lists table.now) edge.now) false (timers_in self.now edge.now.process) edge.now }
    {
        match edge.does() {
            Kind::Input if class_of(table, edge.first) == Class::Inbound => {
                waiting(edge, self.timers_of(edge.process.into()))
            }
            Kind::Output if class_of(table, edge.first) == Class::Outbound => skipped(edge),
            Kind::Assignment if is_marked(table, &self.marks, edge, edge.value) => skipped(edge),
            Kind::Output | Kind::Set if is_marked(table, &self.marks, edge, edge.value) => {
                emptied(edge)
            }
            _ => *edge,
        }
    }

    /// Whether the edge loses its guard.
    fn frees<T: Table>(&self, table: &T, edge: &Edge) -> bool
        ensures { result ≡ freed_in self.now (T.lists table.now) edge.now }
    {
        match edge.guarded() {
            Mode::Expression => is_marked(table, &self.marks, edge, edge.guard),
            Mode::Else => self.survey.spot(edge.start()).guard_marked,
            _ => false,
        }
    }

    /// What the edge becomes.
    #[tactic(auto, unfolding(crate::specs::Layers::edge_in))]
    pub(crate) fn close_edge<T: Table>(&self, table: &T, edge: &Edge) -> Edge
        ensures { result ≡ edge_in self.now (T.lists table.now) edge.now }
    {
        let changed = self.change(table, edge);
        if self.frees(table, edge) {
            Edge {
                mode: Mode::Unguarded as u8,
                guard: Span::default(),
                ..changed
            }
        } else {
            changed
        }
    }
}
