//! The closing layer: the table below, closed by a plan. It answers each question from the plan and from the records that the question is about.
ghost use Rattle.std.specs.Prelude.{◌≡◌, ◌≤◌, length};
ghost use Rattle.std.specs.List.{slice_get};
ghost use Rattle.std.specs.Option.{option_copied};
ghost use Rattle.closing.specs.Layers.{process_in, loops_in, at_work, layered};
ghost use Rattle.rules.specs.Closing.{closed_signal};
ghost use Rattle.table.specs.Lists.{meant};

use crate::plan::Plan;
use table::limits;
use table::questions::Table;
use table::record::{Class, Edge, Process, Signal, Term, Timer};

/// Owns the table below. Without a plan it is that table.
#[derive(Drop)]
pub struct Layer<T> {
    pub(crate) below: T,
    pub(crate) plan: Option<Plan>,
}

/// What came from the surroundings or went there is absent.
fn closed_signal(signal: Signal) -> Signal
    ensures { result ≡ closed_signal signal }
{
    if matches!(signal.is(), Class::Inbound | Class::Outbound) {
        Signal::ABSENT
    } else {
        signal
    }
}

impl Plan {
    /// Puts the chaos timer of process p behind its own timers, if it has one.
    #[tactic(auto, using(crate::proofs::Layering::chaos_added))]
    fn close_process(&self, p: usize, process: &mut Process)
        ensures { meant process.new ≡ process_in self.now p (meant process.old) }
    {
        if self.survey.is_chaotic(p) && process.timers < limits::TIMERS {
            process.settings[usize::from(process.timers)] = Timer::On(0);
            process.timers += 1;
        }
    }

    /// How many edges are added.
    fn added(&self) -> usize
        ensures value { result ≡ length (loops_in self.now) }
        ensures bound { result ≤ 2176 }
    {
        self.loops.wanted()
    }

    #[tactic(auto, using(crate::proofs::Layering::answering))]
    fn added_edge(&self, k: usize) -> Option<Edge>
        ensures { result ≡ slice_get (loops_in self.now) k }
    {
        self.loops.at(k).map(Edge::from)
    }
}

impl<T: Table> Layer<T> {
    /// The plan, if the layer closes, which it does only for tables of at most 2,048 edges. The table below has so many: each
    /// question asks it for them once, since a layer may lie below that asks on.
    fn at_work(&self, edges: usize) -> Option<&Plan>
        requires { edges ≡ length (T.lists self.now.below).edges }
        ensures { option_copied result ≡ at_work self.now.plan (T.lists self.now.below) }
    {
        if edges > limits::EDGES {
            return None;
        }
        self.plan.as_ref()
    }
}

#[tactic(auto, using(crate::proofs::Layering::answering))]
impl<T: Table> Table for Layer<T> {
    ghost lists = { λ s. layered s.plan (T.Table.lists s.below) };

    fn process_count(&self) -> usize {
        self.below.process_count()
    }

    fn signal_count(&self) -> usize {
        self.below.signal_count()
    }

    fn edge_count(&self) -> usize {
        let edges = self.below.edge_count();
        edges + self.at_work(edges).map_or(0, Plan::added)
    }

    fn term_count(&self) -> usize {
        self.below.term_count()
    }

    fn process(&self, p: usize, place: &mut Process) -> bool {
        let found = self.below.process(p, place);
        if found && let Some(plan) = self.at_work(self.below.edge_count()) {
            plan.close_process(p, place);
        }
        found
    }

    fn signal(&self, s: usize) -> Option<Signal> {
        let signal = self.below.signal(s)?;
        Some(match self.at_work(self.below.edge_count()) {
            Some(_) => closed_signal(signal),
            None => signal,
        })
    }

    fn edge(&self, k: usize) -> Option<Edge> {
        let edges = self.below.edge_count();
        let Some(plan) = self.at_work(edges) else {
            return self.below.edge(k);
        };
        match self.below.edge(k) {
            Some(edge) => Some(plan.close_edge(&self.below, &edge)),
            None => plan.added_edge(k - edges),
        }
    }

    fn term(&self, i: usize) -> Option<Term> {
        self.below.term(i)
    }
}
