//! Step K: the tick of the clock.
ghost use Rattle.std.specs.Prelude.{◌≡◌, ℕ, ◌+◌, ◌*◌, ◌<◌, ◌≤◌, List, length, None, IfErr, is_ok, if◌then◌else◌};
ghost use Rattle.refusal.specs.Refusals.{outcome};
ghost use Rattle.rules.specs.States.{at};
ghost use Rattle.rules.specs.Steps.{call_refused, effect, put, restless, rests, state_refused};
ghost use Rattle.rules.specs.declared.step.Message.{Message};
ghost use Rattle.rules.specs.declared.step.Step.TheVariants.{Tick};
ghost use Rattle.stepping.specs.Faults.{state_refusal};
ghost use Rattle.stepping.specs.Worlds.{beyond, cooled, world_of};
ghost use Rattle.table.specs.Examination.{limits_refused};

use crate::conditions::waits;
use crate::fault::StateFault;
use crate::state::State;
use examination::first::first_fault;
use loading::leaving::Leaving;
use rules::step::Message;
use table::questions::{Table, process_or_blank};

impl State {
    /// Whether process p waits, has no message, and none of its timers is at on(0).
    fn is_resting<T: Leaving>(&self, table: &T, p: usize) -> bool
        requires there { p < self.now.count }
        requires limits { limits_refused (T.lists table.now) ≡ None }
        ensures { (m : List Message) → 16 * p + 16 ≤ length m → result ≡ rests (T.lists table.now) p (at (world_of self.now m) p) }
    {
        let timers = process_or_blank(table, p).timers;
        self.processes[p].is_idle(timers) && waits(table, self.site(p))
    }

    fn check_rest<T: Leaving>(&self, table: &T, p: usize) -> Result<(), StateFault>
        requires there { p < self.now.count }
        requires limits { limits_refused (T.lists table.now) ≡ None }
        ensures { (m : List Message) → 16 * p + 16 ≤ length m → outcome state_refusal result ≡ restless (T.lists table.now) p (at (world_of self.now m) p) }
    {
        if self.is_resting(table, p) {
            Ok(())
        } else {
            Err(StateFault::Unready(p))
        }
    }

    /// Whether every process rests.
    fn check_rests<T: Leaving>(&self, table: &T, memory: &[Message]) -> Result<(), StateFault>
        requires limits { limits_refused (T.lists table.now) ≡ None }
        requires places { (p : ℕ) → p < self.now.count → 16 * p + 16 ≤ length memory.now }
        ensures { outcome state_refusal result ≡ call_refused (T.lists table.now) (world_of self.now memory.now) Tick }
    {
        first_fault(self.count, |p| self.check_rest(table, p))
    }

    /// One tick of the first so many timers of process p.
    fn cool_one(&mut self, p: usize, timers: u8)
        requires there { p < self.old.count }
        requires few { timers ≤ 8 }
        ensures world { (m : List Message) → world_of self.new m ≡ put (world_of self.old m) p (cooled timers (at (world_of self.old m) p)) }
        ensures count { self.new.count ≡ self.old.count }
        ensures beyond { beyond self.new ≡ beyond self.old }
    {
        let mut local = self.processes[p];
        local.cool(timers);
        self.processes[p] = local;
    }

    /// One tick of all timers that the processes have in the table.
    fn cool<T: Table>(&mut self, table: &T)
        requires { limits_refused (T.lists table.now) ≡ None }
        ensures world { (m : List Message) → world_of self.new m ≡ effect (T.lists table.now) (world_of self.old m) Tick }
        ensures beyond { beyond self.new ≡ beyond self.old }
    {
        for p in 0..self.count {
            self.cool_one(p, process_or_blank(table, p).timers);
        }
    }

    /// The clock ticks, where every process rests.
    pub(crate) fn tick<T: Leaving>(
        &mut self,
        table: &T,
        memory: &[Message],
    ) -> Result<(), StateFault>
        requires { state_refused (T.lists table.now) (world_of self.old memory.now) ≡ None }
        ensures refused { outcome state_refusal result ≡ call_refused (T.lists table.now) (world_of self.old memory.now) Tick }
        ensures world { let W = world_of self.old memory.now in world_of self.new memory.now ≡ (if is_ok result then effect (T.lists table.now) W Tick else W) }
        ensures beyond { beyond self.new ≡ beyond self.old }
        ensures state { IfErr result (λ f. self.new ≡ self.old) }
    {
        self.check_rests(table, memory)?;
        self.cool(table);
        Ok(())
    }
}
