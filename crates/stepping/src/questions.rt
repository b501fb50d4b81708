//! What a state can be asked.
ghost use Rattle.std.specs.Prelude.{◌≡◌, ◌+◌, ◌*◌, ◌≤◌, List, [], length, take, None, if◌then◌else◌};
ghost use Rattle.std.specs.List.{slice_get};
ghost use Rattle.std.specs.Option.{option_and_then, option_copied, option_map};
ghost use Rattle.rules.specs.States.{lacking};
ghost use Rattle.rules.specs.declared.step.Message.{Message};
ghost use Rattle.stepping.specs.Worlds.{world_of};

use crate::state::{Local, State};
use rules::step::Message;
use table::record::{Process, Timer};

#[tactic(auto, using(crate::proofs::Asking::asking))]
impl State {
    /// A state of no processes.
    pub fn new() -> Self
        ensures { (m : List Message) → (world_of result m).processes ≡ [] }
    {
        State {
            count: 0,
            processes: [Local::begun(&Process::BLANK); 8],
        }
    }

    pub fn process_count(&self) -> usize
        ensures { (m : List Message) → result ≡ length (world_of self.now m).processes }
    {
        self.count
    }

    fn local(&self, p: usize) -> Option<&Local>
        ensures { option_copied result ≡ slice_get (take self.now.count self.now.processes) p }
    {
        self.processes[..self.count].get(p)
    }

    /// Where process p is, if there is one.
    pub fn location(&self, p: usize) -> Option<u8>
        ensures { (m : List Message) → result ≡ option_map (λ r. r.location) (slice_get (world_of self.now m).processes p) }
    {
        Some(self.local(p)?.location)
    }

    /// The value of variable n of process p. A process has places for eight.
    pub fn variable(&self, p: usize, n: usize) -> Option<i16>
        ensures { (m : List Message) → result ≡ option_and_then (λ r. slice_get r.variables n) (slice_get (world_of self.now m).processes p) }
    {
        self.local(p)?.variable(n)
    }

    /// Timer n of process p. A process has places for eight.
    pub fn timer(&self, p: usize, n: usize) -> Option<Timer>
        ensures { (m : List Message) → result ≡ option_and_then (λ r. slice_get r.timers n) (slice_get (world_of self.now m).processes p) }
    {
        self.local(p)?.timer(n)
    }

    /// How many messages the queue of process p holds.
    pub fn message_count(&self, p: usize) -> Option<usize>
        ensures { (m : List Message) → 16 * p + 16 ≤ length m → result ≡ option_map (λ r. length r.queue) (slice_get (world_of self.now m).processes p) }
    {
        Some(self.local(p)?.queue.len())
    }

    /// Message i of the queue of process p, the oldest being number 0; none where the memory lacks places of that queue.
    pub fn message(&self, memory: &[Message], p: usize, i: usize) -> Option<Message>
        ensures { result ≡ (if lacking (length memory.now) p then None else option_and_then (λ r. slice_get r.queue i) (slice_get (world_of self.now memory.now).processes p)) }
    {
        let local = self.local(p)?;
        if memory.len() < 16 * (p + 1) {
            return None;
        }
        local.queue.get(&memory[16 * p..16 * p + 16], i)
    }
}
