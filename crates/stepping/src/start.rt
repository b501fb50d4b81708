//! Starting a table.
ghost use Rattle.std.specs.Prelude.{◌≡◌, ℕ, ◌<◌, ◌≤◌, List, length, slice_index_or, None, IfOk, IfErr};
ghost use Rattle.std.specs.Option.{option_map};
ghost use Rattle.marks.specs.Instances.{process_at};
ghost use Rattle.refusal.specs.Refusals.{outcome};
ghost use Rattle.rules.specs.States.{begun, started, lacking, start_refused};
ghost use Rattle.rules.specs.Steps.{state_at};
ghost use Rattle.rules.specs.declared.step.Message.{Message};
ghost use Rattle.stepping.specs.Faults.{start_refusal};
ghost use Rattle.stepping.specs.Worlds.{running, world_of};
ghost use Rattle.stepping.specs.declared.state.Local.{Local};
ghost use Rattle.table.specs.Examination.{first_from, limits_refused};

use crate::fault::StartFault;
use crate::state::{Local, State};
use examination::examine;
use rules::step::Message;
use std::array;
use table::questions::{Table, process_or_blank};

/// Whether there are queue places for so many processes; each has sixteen.
#[tactic(auto, using(crate::proofs::Starting::first_lacking))]
fn check_places(processes: usize, room: usize) -> Result<(), StartFault>
    ensures { outcome start_refusal result ≡ option_map (state_at 18) (first_from (lacking room) 0 processes) }
{
    let enough = room / 16;
    if enough < processes {
        return Err(StartFault::NoPlaces(enough));
    }
    Ok(())
}

fn begun_at<T: Table>(table: &T, p: usize) -> Local
    requires { limits_refused (T.lists table.now) ≡ None }
    ensures { (ps : List Message) → running ps result ≡ begun (process_at (T.lists table.now) p) }
{
    Local::begun(&process_or_blank(table, p))
}

/// The first eight processes at their start.
fn all_begun<T: Table>(table: &T) -> [Local; 8]
    requires { limits_refused (T.lists table.now) ≡ None }
    ensures length { length result ≡ 8 }
    ensures each { (p : ℕ) (d : Local) (ps : List Message) → p < 8 → running ps (slice_index_or result p d) ≡ begun (process_at (T.lists table.now) p) }
{
    array::from_fn(|p| begun_at(table, p))
}

/// Whether the table can start, with so many places in the queue memory.
#[tactic(auto, unfolding(rules::specs::States::start_refused))]
fn check<T: Table>(table: &T, room: usize) -> Result<(), StartFault>
    ensures { outcome start_refusal result ≡ start_refused (T.lists table.now) room }
{
    examine(table)?;
    check_places(table.process_count(), room)
}

impl State {
    /// The table at its start.
    fn started<T: Table>(table: &T) -> Self
        requires { limits_refused (T.lists table.now) ≡ None }
        ensures world { (m : List Message) → world_of result m ≡ started (T.lists table.now) (length m) }
        ensures places { (p : ℕ) (d : Local) (m : List Message) → p < 8 → running m (slice_index_or result.processes p d) ≡ begun (process_at (T.lists table.now) p) }
    {
        State {
            count: table.process_count(),
            processes: all_begun(table),
        }
    }
}

/// Fills the state with the table at its start, whatever it held. A refused start changes nothing.
pub fn start<T: Table>(table: &T, state: &mut State, memory: &[Message]) -> Result<(), StartFault>
    ensures refused { outcome start_refusal result ≡ start_refused (T.lists table.now) (length memory.now) }
    ensures world { IfOk result (λ u. world_of state.new memory.now ≡ started (T.lists table.now) (length memory.now)) }
    ensures places { IfOk result (λ u. (p : ℕ) (d : Local) (m : List Message) → p < 8 → running m (slice_index_or state.new.processes p d) ≡ begun (process_at (T.lists table.now) p)) }
    ensures state { IfErr result (λ f. state.new ≡ state.old) }
{
    check(table, memory.len())?;
    *state = State::started(table);
    Ok(())
}
