//! Step E: the surroundings send a signal.
ghost use Rattle.std.specs.Prelude.{◌≡◌, Some, None, IfErr, is_ok, if◌then◌else◌};
ghost use Rattle.refusal.specs.Refusals.{outcome};
ghost use Rattle.marks.specs.Rules.{class_at};
ghost use Rattle.rules.specs.States.{is_inbound, goal};
ghost use Rattle.rules.specs.Steps.{call_refused, effect, state_refused};
ghost use Rattle.rules.specs.declared.step.Step.TheVariants.{Offer};
ghost use Rattle.stepping.specs.Faults.{state_refusal};
ghost use Rattle.stepping.specs.Worlds.{after, beyond, world_of};

use crate::fault::StateFault;
use crate::state::State;
use rules::step::Message;
use table::questions::{Table, signal_or_absent};
use table::record::Class;

/// The destination of the signal, if it is inbound.
fn inbound_goal<T: Table>(table: &T, signal: usize) -> Option<usize>
    ensures { result ≡ (if is_inbound (class_at (T.lists table.now) signal) then Some (goal (T.lists table.now) signal) else None) }
{
    let record = signal_or_absent(table, signal);
    (record.is() == Class::Inbound).then_some(record.destination.into())
}

impl State {
    /// An inbound signal joins the queue at its destination.
    pub(crate) fn offer<T: Table>(
        &mut self,
        table: &T,
        memory: &mut [Message],
        signal: u16,
        value: i16,
    ) -> Result<(), StateFault>
        requires { state_refused (T.lists table.now) (world_of self.old memory.old) ≡ None }
        ensures refused { outcome state_refusal result ≡ call_refused (T.lists table.now) (world_of self.old memory.old) (Offer signal value) }
        ensures world { let W = world_of self.old memory.old in world_of self.new memory.new ≡ (if is_ok result then effect (T.lists table.now) W (Offer signal value) else W) }
        ensures beyond { beyond self.new ≡ beyond self.old }
        ensures after { after self.old memory.new ≡ after self.old memory.old }
        ensures state { IfErr result (λ f. self.new ≡ self.old) }
        ensures memory { IfErr result (λ f. memory.new ≡ memory.old) }
    {
        let number = usize::from(signal);
        let Some(p) = inbound_goal(table, number) else {
            return Err(StateFault::Missing(number));
        };
        if self.is_full(p) {
            return Err(StateFault::Full(p));
        }
        let signal = signal as u8;
        self.deliver(memory, p, Message { signal, value });
        Ok(())
    }
}
