//! Step M: a process moves along an edge.
ghost use Rattle.std.specs.Prelude.{◌≡◌, ℕ, ◌+◌, ◌*◌, ◌<◌, ◌≤◌, ◌&&◌, List, not, true, length, is_some, Some, None, IfErr, is_ok, if◌then◌else◌};
ghost use Rattle.marks.specs.Rules.{class_at, is_output};
ghost use Rattle.refusal.specs.Refusals.{outcome};
ghost use Rattle.rules.specs.States.{at, goal, is_outbound};
ghost use Rattle.rules.specs.Steps.{answer, call_refused, deliver, edge_value, effect, enabled, full, kind_ready, leaving, move_effect, moved, put, ready, scope, sends, state_at, state_refused, told};
ghost use Rattle.rules.specs.declared.step.Message.{Message};
ghost use Rattle.rules.specs.declared.step.Step.TheVariants.{Move};
ghost use Rattle.stepping.specs.Faults.{state_refusal, stepping};
ghost use Rattle.stepping.specs.Worlds.{after, beyond, world_of};
ghost use Rattle.table.specs.Edges.{edge_fault};
ghost use Rattle.table.specs.Examination.{limits_refused};
ghost use Rattle.table.specs.Records.{kind_of};
ghost use Rattle.table.specs.declared.record.Kind.TheVariants.{Output};

use crate::conditions::{is_allowed, value_of};
use crate::fault::StateFault;
use crate::state::State;
use examination::edge::check;
use loading::leaving::Leaving;
use rules::step::Message;
use table::questions::{Table, class_of, process_or_blank, signal_or_absent};
use table::record::{Class, Edge, Kind};

/// Whether the edge breaks no rule.
fn is_sound<T: Table>(table: &T, edge: &Edge) -> bool
    ensures { result ≡ not (is_some (edge_fault (T.lists table.now) edge.now)) }
{
    check(table, edge).is_ok()
}

/// Where the message of an internal output goes.
fn receiver<T: Table>(table: &T, edge: &Edge) -> Option<usize>
    ensures { result ≡ (if sends (T.lists table.now) edge.now then Some (goal (T.lists table.now) edge.now.first) else None) }
{
    let signal = signal_or_absent(table, edge.first.into());
    let stays = edge.does() == Kind::Output && signal.is() == Class::Internal;
    stays.then_some(signal.destination.into())
}

/// Whether the edge is an outbound output.
fn leaves<T: Table>(table: &T, edge: &Edge) -> bool
    ensures { result ≡ (is_output (kind_of edge.now.kind) && is_outbound (class_at (T.lists table.now) edge.now.first)) }
{
    edge.does() == Kind::Output && class_of(table, edge.first) == Class::Outbound
}

impl State {
    /// The variables of process p that the table gives it.
    fn scope<T: Table>(&self, table: &T, p: usize) -> &[i16]
        requires there { p < self.now.count }
        requires limits { limits_refused (T.lists table.now) ≡ None }
        ensures { (m : List Message) → result.now ≡ scope (T.lists table.now) p (at (world_of self.now m) p) }
    {
        let count = process_or_blank(table, p).variables;
        self.processes[p].scope(count)
    }

    /// Whether the edge's kind has what it needs: its signal at the head, or its timer at on(0).
    fn is_kind_ready(&self, memory: &[Message], edge: &Edge) -> bool
        requires there { edge.now.process < self.now.count }
        requires places { 16 * edge.now.process + 16 ≤ length memory.now }
        ensures { result ≡ kind_ready (kind_of edge.now.kind) (at (world_of self.now memory.now) edge.now.process) edge.now }
    {
        let p = usize::from(edge.process);
        match edge.does() {
            Kind::Input => self
                .head(memory, p)
                .is_some_and(|head| head.signal == edge.first),
            Kind::Timeout | Kind::Rearm => self.is_due(p, edge.first.into()),
            Kind::Unknown => false,
            _ => true,
        }
    }

    /// Whether the edge's process is where it begins, its guard is true and its kind ready.
    fn is_ready<T: Leaving>(&self, table: &T, memory: &[Message], edge: &Edge) -> bool
        requires there { edge.now.process < self.now.count }
        requires places { 16 * edge.now.process + 16 ≤ length memory.now }
        requires limits { limits_refused (T.lists table.now) ≡ None }
        ensures { result ≡ ready (T.lists table.now) (at (world_of self.now memory.now) edge.now.process) edge.now }
    {
        let p = usize::from(edge.process);
        if self.site(p) != edge.start() {
            return false;
        }
        is_allowed(table, edge, self.scope(table, p)) && self.is_kind_ready(memory, edge)
    }

    /// Whether the edge breaks no rule and is ready.
    #[tactic(auto, unfolding(rules::specs::Steps::enabled))]
    fn is_enabled<T: Leaving>(&self, table: &T, memory: &[Message], edge: &Edge) -> bool
        requires { state_refused (T.lists table.now) (world_of self.now memory.now) ≡ None }
        ensures { result ≡ enabled (T.lists table.now) (world_of self.now memory.now) edge.now }
    {
        is_sound(table, edge) && self.is_ready(table, memory, edge)
    }

    fn value<T: Table>(&self, table: &T, edge: &Edge) -> i16
        requires there { edge.now.process < self.now.count }
        requires limits { limits_refused (T.lists table.now) ≡ None }
        ensures { (m : List Message) → result ≡ edge_value (T.lists table.now) (world_of self.now m) edge.now }
    {
        value_of(table, edge, self.scope(table, edge.process.into()))
    }

    /// The process moves along an internal output, whose message joins the queue of process p.
    fn send(
        &mut self,
        memory: &mut [Message],
        edge: &Edge,
        message: Message,
        p: usize,
    ) -> Result<(), StateFault>
        requires kind { kind_of edge.now.kind ≡ Output }
        requires from { edge.now.process < self.old.count }
        requires to { p < self.old.count }
        requires places { (q : ℕ) → q < self.old.count → 16 * q + 16 ≤ length memory.old }
        ensures refused { outcome state_refusal result ≡ (if full (world_of self.old memory.old) p then Some (state_at 21 p) else None) }
        ensures world { let W = world_of self.old memory.old in world_of self.new memory.new ≡ (if is_ok result then deliver (put W edge.now.process (moved Output message.value edge.now (at W edge.now.process))) p message else W) }
        ensures beyond { beyond self.new ≡ beyond self.old }
        ensures after { after self.old memory.new ≡ after self.old memory.old }
        ensures state { IfErr result (λ f. self.new ≡ self.old) }
        ensures memory { IfErr result (λ f. memory.new ≡ memory.old) }
    {
        if self.is_full(p) {
            return Err(StateFault::Full(p));
        }
        self.follow(memory, edge, message.value);
        self.deliver(memory, p, message);
        Ok(())
    }

    /// The process moves along the edge, which is enabled.
    fn go<T: Table>(
        &mut self,
        table: &T,
        memory: &mut [Message],
        edge: &Edge,
    ) -> Result<Option<Message>, StateFault>
        requires standing { state_refused (T.lists table.now) (world_of self.old memory.old) ≡ None }
        requires enabled { enabled (T.lists table.now) (world_of self.old memory.old) edge.now ≡ true }
        ensures answer { let W = world_of self.old memory.old in stepping result ≡ answer (if sends (T.lists table.now) edge.now && full W (goal (T.lists table.now) edge.now.first) then Some (state_at 21 (goal (T.lists table.now) edge.now.first)) else None) (leaving (T.lists table.now) W edge.now) }
        ensures world { let W = world_of self.old memory.old in world_of self.new memory.new ≡ (if is_ok result then move_effect (T.lists table.now) W edge.now else W) }
        ensures beyond { beyond self.new ≡ beyond self.old }
        ensures after { after self.old memory.new ≡ after self.old memory.old }
        ensures state { IfErr result (λ f. self.new ≡ self.old) }
        ensures memory { IfErr result (λ f. memory.new ≡ memory.old) }
    {
        let value = self.value(table, edge);
        let message = Message {
            signal: edge.first,
            value,
        };
        if let Some(p) = receiver(table, edge) {
            return self.send(memory, edge, message, p).map(|()| None);
        }
        self.follow(memory, edge, value);
        Ok(leaves(table, edge).then_some(message))
    }

    /// The process of edge k moves along it.
    pub(crate) fn move_along<T: Leaving>(
        &mut self,
        table: &T,
        memory: &mut [Message],
        k: u16,
    ) -> Result<Option<Message>, StateFault>
        requires { state_refused (T.lists table.now) (world_of self.old memory.old) ≡ None }
        ensures answer { let W = world_of self.old memory.old in stepping result ≡ answer (call_refused (T.lists table.now) W (Move k)) (told (T.lists table.now) W (Move k)) }
        ensures world { let W = world_of self.old memory.old in world_of self.new memory.new ≡ (if is_ok result then effect (T.lists table.now) W (Move k) else W) }
        ensures beyond { beyond self.new ≡ beyond self.old }
        ensures after { after self.old memory.new ≡ after self.old memory.old }
        ensures state { IfErr result (λ f. self.new ≡ self.old) }
        ensures memory { IfErr result (λ f. memory.new ≡ memory.old) }
    {
        let number = usize::from(k);
        let Some(edge) = table.edge(number) else {
            return Err(StateFault::Missing(number));
        };
        if !self.is_enabled(table, memory, &edge) {
            return Err(StateFault::Unready(edge.process.into()));
        }
        self.go(table, memory, &edge)
    }
}
