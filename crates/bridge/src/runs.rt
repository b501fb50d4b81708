//! Running a list of steps from a table's start.
ghost use Rattle.std.specs.Prelude.{◌≡◌, ◌*◌, ◌/◌, ◌<◌, ◌≤◌, length, cond, Some, None, Ok, IfOk};
ghost use Rattle.std.specs.Result.{result_err};
ghost use Rattle.bridge.specs.Answers.{RunsTo, Traced};
ghost use Rattle.bridge.specs.Codes.{answer_code};
ghost use Rattle.bridge.specs.Laid.{laid, spelled};
ghost use Rattle.bridge.specs.Traces.{answers, ends, step_at, unstarted};
ghost use Rattle.loading.specs.Loading.{lists_of as loaded_lists};
ghost use Rattle.reading.specs.Opening.{opened};
ghost use Rattle.rules.specs.States.{started};
ghost use Rattle.sheet.specs.Views.{lists_of, opened_of};
ghost use Rattle.sheet.specs.declared.view.Sheet.{Sheet};
ghost use Rattle.stepping.specs.Faults.{stepping};
ghost use Rattle.stepping.specs.Worlds.{world_of};

use crate::bytes::{byte_at, pair_at};
use crate::codes::{message_code, packed};
use crate::ending::{STATE_WORDS, put_state};
use crate::laying::put;
use loading::leaving::Leaving;
use loading::loaded::Loaded;
use refusal::fault::Refusal;
use rules::step::{Message, Step};
use sheet::opening::open_sheet;
use stepping::fault::StateFault;
use stepping::start::start;
use stepping::state::State;
use stepping::step::step_on;

/// Bytes of a step.
const STEP: usize = 5;

#[tactic(auto, unfolding(crate::specs::Traces::step_at))]
fn step_at(steps: &[u8], i: usize) -> Step
    requires { i < 1152921504606846976 }
    ensures { result ≡ step_at steps.now i }
{
    let first = pair_at(steps, STEP * i + 1);
    let second = pair_at(steps, STEP * i + 3);
    match byte_at(steps, STEP * i) {
        0 => Step::Offer {
            signal: first,
            value: second.cast_signed(),
        },
        1 => Step::Move(first),
        2 => Step::Discard(first),
        3 => Step::Expire {
            process: first,
            timer: second,
        },
        _ => Step::Tick,
    }
}

fn told(answer: Result<Option<Message>, StateFault>) -> u64
    ensures { result ≡ answer_code (stepping answer) }
{
    match answer {
        Ok(message) => message_code(message),
        Err(fault) => packed(fault.into()),
    }
}

/// Makes so many of the steps, and writes what they answer.
fn make<T: Leaving>(
    table: &T,
    state: &mut State,
    memory: &mut [Message],
    steps: &[u8],
    count: usize,
    out: &mut [u8],
)
    requires count { count < 1152921504606846976 }
    requires room { 8 * count ≤ length out.old }
    ensures world { world_of state.new memory.new ≡ ends (T.lists table.now) (world_of state.old memory.old) steps.now count }
    ensures out { out.new ≡ laid (spelled (answers (T.lists table.now) (world_of state.old memory.old) steps.now count)) out.old }
    ensures length { length out.new ≡ length out.old }
{
    for i in 0..count {
        let answer = step_on(table, state, memory, step_at(steps, i));
        put(out, 8 * i, &told(answer).to_be_bytes());
    }
}

/// The table of the sheet, and the state filled with its start.
fn begin(bytes: &[u8], state: &mut State, memory: &[Message]) -> Result<Loaded, Refusal>
    ensures refused { result_err result ≡ unstarted (opened bytes.now) (length memory.now) }
    ensures opens { IfOk result (λ t. (s : Sheet) × ((opened bytes.now ≡ Ok (opened_of s)) × (loaded_lists t ≡ lists_of s))) }
    ensures world { IfOk result (λ t. world_of state.new memory.now ≡ started (loaded_lists t) (length memory.now)) }
{
    let sheet = open_sheet(bytes)?;
    let table = Loaded::of(&sheet);
    start(&table, state, memory)?;
    Ok(table)
}

/// Makes all steps and writes the answers and the end, if there is room for all of it; answers how many bytes that takes.
fn run<T: Leaving>(
    table: &T,
    state: &mut State,
    memory: &mut [Message],
    steps: &[u8],
    out: &mut [u8],
) -> usize
    ensures { RunsTo (T.lists table.now) (world_of state.old memory.old) steps.now result out.old out.new }
{
    let count = steps.len() / STEP;
    let size = 8 * (count + STATE_WORDS);
    if size <= out.len() {
        make(table, state, memory, steps, count, out);
        put_state(state, memory, 8 * count, out);
    }
    size
}

/// The answers to the steps from the table's start on, and the end; or the refusal.
pub(crate) fn trace(bytes: &[u8], steps: &[u8], out: &mut [u8]) -> u64
    ensures { Traced bytes.now steps.now result out.old out.new }
{
    let mut state = State::new();
    let mut memory = [Message {
        signal: 0,
        value: 0,
    }; 128];
    match begin(bytes, &mut state, &memory) {
        Ok(table) => run(&table, &mut state, &mut memory, steps, out) as u64,
        Err(refusal) => packed(refusal),
    }
}
