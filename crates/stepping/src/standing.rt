//! Whether a state can run a table.
ghost use Rattle.std.specs.Prelude.{◌≡◌, ◌<◌, List, length};
ghost use Rattle.refusal.specs.Refusals.{outcome};
ghost use Rattle.rules.specs.States.{at};
ghost use Rattle.rules.specs.Steps.{misplaced, unlike, state_refused};
ghost use Rattle.rules.specs.declared.step.Message.{Message};
ghost use Rattle.stepping.specs.Faults.{state_refusal};
ghost use Rattle.stepping.specs.Worlds.{world_of};

use crate::fault::StateFault;
use crate::state::State;
use examination::first::first_fault;
use loading::leaving::Leaving;
use rules::step::Message;
use table::questions::{Table, process_or_blank};

impl State {
    /// Whether the table gives process p its location, and the memory the places of its queue.
    #[tactic(auto, using(crate::proofs::Worlds::reading))]
    fn check_process<T: Table>(
        &self,
        table: &T,
        memory: &[Message],
        p: usize,
    ) -> Result<(), StateFault>
        requires { p < self.now.count }
        ensures { outcome state_refusal result ≡ misplaced (T.lists table.now) (length memory.now) p (at (world_of self.now memory.now) p) }
    {
        let locations = process_or_blank(table, p).locations;
        if self.processes[p].location >= locations || memory.len() < 16 * (p + 1) {
            return Err(StateFault::Misplaced(p));
        }
        Ok(())
    }

    /// Whether the table has another count of processes, or is beyond its limits.
    #[tactic(auto, using(crate::proofs::Worlds::length_world))]
    fn is_unlike<T: Leaving>(&self, table: &T) -> bool
        ensures { (m : List Message) → result ≡ unlike (T.lists table.now) (world_of self.now m) }
    {
        self.count != table.process_count() || table.check_limits().is_err()
    }

    /// Whether the state and the memory can run the table.
    pub(crate) fn check<T: Leaving>(&self, table: &T, memory: &[Message]) -> Result<(), StateFault>
        ensures { outcome state_refusal result ≡ state_refused (T.lists table.now) (world_of self.now memory.now) }
    {
        if self.is_unlike(table) {
            return Err(StateFault::Unlike);
        }
        first_fault(self.count, |p| self.check_process(table, memory, p))
    }
}
