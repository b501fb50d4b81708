//! A state as numbers of 64 bits.
ghost use Rattle.std.specs.Prelude.{◌≡◌, ℕ, ◌+◌, ◌*◌, ◌<◌, ◌≤◌, List, ◌++◌, length, Option};
ghost use Rattle.bridge.specs.Laid.{laid, spelled};
ghost use Rattle.bridge.specs.Traces.{location_word, state_word, state_words, timer_word, variable_word};
ghost use Rattle.stepping.specs.Worlds.{world_of};

use crate::codes::message_code;
use crate::laying::put;
use rules::step::Message;
use stepping::state::State;
use table::record::Timer;

/// Words of a process: its location, 8 variables, 8 timers, 16 messages.
const WORDS: usize = 33;

/// Of eight processes.
pub(crate) const STATE_WORDS: usize = 264;

/// Says that a timer is on.
const ON: u64 = 1 << 16;

fn location_word(location: Option<u8>) -> u64
    ensures { result ≡ location_word location }
{
    location.unwrap_or(0).into()
}

pub(crate) fn variable_word(value: Option<i16>) -> u64
    ensures { result ≡ variable_word value }
{
    match value {
        Some(value) => value.cast_unsigned().into(),
        None => 0,
    }
}

pub(crate) fn timer_word(timer: Option<Timer>) -> u64
    ensures { result ≡ timer_word timer }
{
    match timer {
        Some(Timer::On(ticks)) => ON + u64::from(ticks),
        Some(Timer::Off) | None => 0,
    }
}

#[tactic(auto, unfolding(crate::specs::Traces::state_word, stepping::specs::Worlds::world))]
fn state_word(state: &State, memory: &[Message], p: usize, k: usize) -> u64
    ensures { result ≡ state_word (world_of state.now memory.now) p k }
{
    if k == 0 {
        location_word(state.location(p))
    } else if k <= 8 {
        variable_word(state.variable(p, k - 1))
    } else if k <= 16 {
        timer_word(state.timer(p, k - 9))
    } else {
        message_code(state.message(memory, p, k - 17))
    }
}

/// Writes the first so many words of the state.
fn put_words(state: &State, memory: &[Message], at: usize, count: usize, out: &mut [u8])
    requires { at + 8 * count ≤ length out.old }
    ensures laid { (xs old : List ℕ) → length xs ≡ at → out.old ≡ laid xs old
        → out.new ≡ laid (xs ++ spelled (state_words (world_of state.now memory.now) count)) old }
    ensures length { length out.new ≡ length out.old }
{
    for n in 0..count {
        let word = state_word(state, memory, n / WORDS, n % WORDS);
        put(out, at + 8 * n, &word.to_be_bytes());
    }
}

/// Writes the state.
pub(crate) fn put_state(state: &State, memory: &[Message], at: usize, out: &mut [u8])
    requires { at + 2112 ≤ length out.old }
    ensures { (xs old : List ℕ) → length xs ≡ at → out.old ≡ laid xs old
        → out.new ≡ laid (xs ++ spelled (state_words (world_of state.now memory.now) 264)) old }
{
    put_words(state, memory, at, STATE_WORDS, out);
}
