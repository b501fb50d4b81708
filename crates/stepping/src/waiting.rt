//! Steps D and X: a waiting process drops the head of its queue, or turns off a timer that ran out.
ghost use Rattle.std.specs.Prelude.{◌≡◌, ◌+◌, ◌*◌, ◌<◌, ◌≤◌, List, length, slice_index_or, None, IfErr, is_ok, if◌then◌else◌};
ghost use Rattle.std.specs.List.{slice_get};
ghost use Rattle.refusal.specs.Refusals.{outcome};
ghost use Rattle.rules.specs.States.{at, due};
ghost use Rattle.rules.specs.Steps.{call_refused, discards, effect, expires, state_refused};
ghost use Rattle.rules.specs.declared.step.Message.{Message};
ghost use Rattle.rules.specs.declared.step.Step.TheVariants.{Discard, Expire};
ghost use Rattle.stepping.specs.Faults.{state_refusal};
ghost use Rattle.stepping.specs.Worlds.{beyond, world_of};
ghost use Rattle.table.specs.declared.record.Timer.TheVariants.{Off};

use crate::conditions::{waits_without_input, waits_without_timeout};
use crate::fault::StateFault;
use crate::state::State;
use loading::leaving::Leaving;
use rules::step::Message;
use table::questions::process_or_blank;
use table::record::Timer;
use table::site::Site;

impl State {
    /// Where process p is.
    #[tactic(auto, using(crate::proofs::Worlds::reading))]
    pub(crate) fn site(&self, p: usize) -> Site
        requires { p < self.now.count }
        ensures process { result.process ≡ p }
        ensures location { (m : List Message) → result.location ≡ (at (world_of self.now m) p).location }
    {
        Site {
            process: p,
            location: self.processes[p].location.into(),
        }
    }

    /// The oldest message in the queue of process p.
    pub(crate) fn head(&self, memory: &[Message], p: usize) -> Option<Message>
        requires there { p < self.now.count }
        requires places { 16 * p + 16 ≤ length memory.now }
        ensures { result ≡ slice_get (at (world_of self.now memory.now) p).queue 0 }
    {
        self.processes[p].queue.front(&memory[16 * p..16 * p + 16])
    }

    /// Whether the timer of process p is at on(0).
    pub(crate) fn is_due(&self, p: usize, timer: usize) -> bool
        requires { p < self.now.count }
        ensures { (m : List Message) → result ≡ due (slice_index_or (at (world_of self.now m) p).timers timer Off) }
    {
        self.processes[p].is_due(timer)
    }

    #[tactic(auto, using(crate::proofs::Leaving::untaken_none, crate::proofs::Leaving::untaken_some), unfolding(rules::specs::Steps::discards))]
    fn can_discard<T: Leaving>(&self, table: &T, memory: &[Message], p: usize) -> bool
        requires there { p < self.now.count }
        requires places { 16 * p + 16 ≤ length memory.now }
        ensures { result ≡ discards (T.lists table.now) (world_of self.now memory.now) p }
    {
        match self.head(memory, p) {
            Some(head) => waits_without_input(table, self.site(p), head.signal),
            None => false,
        }
    }

    #[tactic(auto, unfolding(rules::specs::Steps::expires))]
    fn can_expire<T: Leaving>(&self, table: &T, p: usize, timer: usize) -> bool
        requires { p < self.now.count }
        ensures { (m : List Message) → result ≡ expires (T.lists table.now) (world_of self.now m) p timer }
    {
        self.is_due(p, timer) && waits_without_timeout(table, self.site(p), timer)
    }

    /// A process drops the head of its queue.
    #[tactic(auto, unfolding(rules::specs::Steps::call_refused, rules::specs::Steps::effect))]
    pub(crate) fn discard<T: Leaving>(
        &mut self,
        table: &T,
        memory: &mut [Message],
        process: u16,
    ) -> Result<(), StateFault>
        requires { state_refused (T.lists table.now) (world_of self.old memory.old) ≡ None }
        ensures refused { outcome state_refusal result ≡ call_refused (T.lists table.now) (world_of self.old memory.old) (Discard process) }
        ensures world { let W = world_of self.old memory.old in world_of self.new memory.new ≡ (if is_ok result then effect (T.lists table.now) W (Discard process) else W) }
        ensures beyond { beyond self.new ≡ beyond self.old }
        ensures memory { memory.new ≡ memory.old }
        ensures state { IfErr result (λ f. self.new ≡ self.old) }
    {
        let p = usize::from(process);
        if p >= self.count {
            return Err(StateFault::Missing(p));
        }
        if !self.can_discard(table, memory, p) {
            return Err(StateFault::Unready(p));
        }
        self.pop(memory, p);
        Ok(())
    }

    /// A process turns off a timer that ran out.
    #[tactic(auto, unfolding(rules::specs::Steps::call_refused, rules::specs::Steps::effect))]
    pub(crate) fn expire<T: Leaving>(
        &mut self,
        table: &T,
        memory: &[Message],
        process: u16,
        timer: u16,
    ) -> Result<(), StateFault>
        requires { state_refused (T.lists table.now) (world_of self.old memory.now) ≡ None }
        ensures refused { outcome state_refusal result ≡ call_refused (T.lists table.now) (world_of self.old memory.now) (Expire process timer) }
        ensures world { let W = world_of self.old memory.now in world_of self.new memory.now ≡ (if is_ok result then effect (T.lists table.now) W (Expire process timer) else W) }
        ensures beyond { beyond self.new ≡ beyond self.old }
        ensures state { IfErr result (λ f. self.new ≡ self.old) }
    {
        let p = usize::from(process);
        if p >= self.count {
            return Err(StateFault::Missing(p));
        }
        let timer = usize::from(timer);
        if timer >= usize::from(process_or_blank(table, p).timers) {
            return Err(StateFault::Missing(timer));
        }
        if !self.can_expire(table, p, timer) {
            return Err(StateFault::Unready(p));
        }
        self.turn(p, timer, Timer::Off);
        Ok(())
    }
}
