//! One step of a running table.
ghost use Rattle.std.specs.Prelude.{◌≡◌, None, IfErr, is_ok, if◌then◌else◌};
ghost use Rattle.refusal.specs.Refusals.{outcome};
ghost use Rattle.rules.specs.Steps.{answer, call_refused, effect, next, state_refused, stepped, told};
ghost use Rattle.stepping.specs.Faults.{state_refusal, stepping};
ghost use Rattle.stepping.specs.Worlds.{after, beyond, world_of};

use crate::fault::StateFault;
use crate::state::State;
use loading::leaving::Leaving;
use loading::scanned::Scanned;
use rules::step::{Message, Step};
use table::questions::Table;

/// The answer of a step that answers nothing.
fn silent(done: Result<(), StateFault>) -> Result<Option<Message>, StateFault>
    ensures answer { stepping result ≡ answer (outcome state_refusal done) None }
    ensures test { is_ok result ≡ is_ok done }
{
    done.map(|()| None)
}

impl State {
    /// Makes the step, of a state that can run the table.
    #[tactic(auto, unfolding(rules::specs::Steps::told))]
    fn make<T: Leaving>(
        &mut self,
        table: &T,
        memory: &mut [Message],
        call: Step,
    ) -> Result<Option<Message>, StateFault>
        requires { state_refused (T.lists table.now) (world_of self.old memory.old) ≡ None }
        ensures answer { let W = world_of self.old memory.old in stepping result ≡ answer (call_refused (T.lists table.now) W call) (told (T.lists table.now) W call) }
        ensures world { let W = world_of self.old memory.old in world_of self.new memory.new ≡ (if is_ok result then effect (T.lists table.now) W call else W) }
        ensures beyond { beyond self.new ≡ beyond self.old }
        ensures after { after self.old memory.new ≡ after self.old memory.old }
        ensures state { IfErr result (λ f. self.new ≡ self.old) }
        ensures memory { IfErr result (λ f. memory.new ≡ memory.old) }
    {
        match call {
            Step::Offer { signal, value } => silent(self.offer(table, memory, signal, value)),
            Step::Move(k) => self.move_along(table, memory, k),
            Step::Discard(p) => silent(self.discard(table, memory, p)),
            Step::Expire { process, timer } => silent(self.expire(table, memory, process, timer)),
            Step::Tick => silent(self.tick(table, memory)),
        }
    }
}

/// Makes the step, and answers the message that leaves, if one does. A refused step changes nothing.
pub fn step<T: Table>(
    table: &T,
    state: &mut State,
    memory: &mut [Message],
    call: Step,
) -> Result<Option<Message>, StateFault>
    ensures answer { stepping result ≡ stepped (T.lists table.now) (world_of state.old memory.old) call }
    ensures world { world_of state.new memory.new ≡ next (T.lists table.now) (world_of state.old memory.old) call }
    ensures beyond { beyond state.new ≡ beyond state.old }
    ensures after { after state.old memory.new ≡ after state.old memory.old }
    ensures state { IfErr result (λ f. state.new ≡ state.old) }
    ensures memory { IfErr result (λ f. memory.new ≡ memory.old) }
{
    step_on(&Scanned { table }, state, memory, call)
}

/// Makes the step, as `step` does, and asks the table only for the edges of the locations that matter.
#[tactic(auto, unfolding(rules::specs::Steps::stepped, rules::specs::Steps::next, rules::specs::Steps::step_refused))]
pub fn step_on<T: Leaving>(
    table: &T,
    state: &mut State,
    memory: &mut [Message],
    call: Step,
) -> Result<Option<Message>, StateFault>
    ensures answer { stepping result ≡ stepped (T.lists table.now) (world_of state.old memory.old) call }
    ensures world { world_of state.new memory.new ≡ next (T.lists table.now) (world_of state.old memory.old) call }
    ensures beyond { beyond state.new ≡ beyond state.old }
    ensures after { after state.old memory.new ≡ after state.old memory.old }
    ensures state { IfErr result (λ f. state.new ≡ state.old) }
    ensures memory { IfErr result (λ f. memory.new ≡ memory.old) }
{
    state.check(table, memory)?;
    state.make(table, memory, call)
}
