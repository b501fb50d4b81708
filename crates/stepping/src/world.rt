//! What the processes of a state do, each with its queue in the memory that is lent.
ghost use Rattle.std.specs.Prelude.{◌≡◌, ◌+◌, ◌*◌, ◌<◌, ◌≤◌, List, false, length};
ghost use Rattle.rules.specs.States.{at};
ghost use Rattle.rules.specs.Steps.{put, deliver, dropped, moved, full};
ghost use Rattle.rules.specs.declared.step.Message.{Message};
ghost use Rattle.stepping.specs.Worlds.{after, beyond, turned, world_of};
ghost use Rattle.table.specs.Records.{kind_of};

use crate::state::State;
use rules::step::Message;
use table::record::{Edge, Timer};

impl State {
    /// Whether the queue of process p holds as many messages as it may.
    #[tactic(auto, using(crate::proofs::Worlds::reading))]
    pub(crate) fn is_full(&self, p: usize) -> bool
        requires { p < self.now.count }
        ensures { (m : List Message) → 16 * p + 16 ≤ length m → result ≡ full (world_of self.now m) p }
    {
        self.processes[p].queue.len() >= 16
    }

    /// The process of the edge moves along it; the edge's value is given.
    pub(crate) fn follow(&mut self, memory: &mut [Message], edge: &Edge, value: i16)
        requires there { edge.now.process < self.old.count }
        requires room { 16 * edge.now.process + 16 ≤ length memory.old }
        ensures world { let W = world_of self.old memory.old in world_of self.new memory.new ≡ put W edge.now.process (moved (kind_of edge.now.kind) value edge.now (at W edge.now.process)) }
        ensures count { self.new.count ≡ self.old.count }
        ensures beyond { beyond self.new ≡ beyond self.old }
        ensures memory { memory.new ≡ memory.old }
    {
        let p = usize::from(edge.process);
        let mut local = self.processes[p];
        local.follow(&mut memory[16 * p..16 * p + 16], edge, value);
        self.processes[p] = local;
    }

    /// Turns a timer of process p.
    pub(crate) fn turn(&mut self, p: usize, timer: usize, setting: Timer)
        requires { p < self.old.count }
        ensures world { (m : List Message) → world_of self.new m ≡ put (world_of self.old m) p (turned timer setting (at (world_of self.old m) p)) }
        ensures count { self.new.count ≡ self.old.count }
        ensures beyond { beyond self.new ≡ beyond self.old }
    {
        let mut local = self.processes[p];
        local.turn(timer, setting);
        self.processes[p] = local;
    }

    /// Takes the head off the queue of process p.
    pub(crate) fn pop(&mut self, memory: &mut [Message], p: usize)
        requires there { p < self.old.count }
        requires room { 16 * p + 16 ≤ length memory.old }
        ensures world { let W = world_of self.old memory.old in world_of self.new memory.new ≡ put W p (dropped (at W p)) }
        ensures count { self.new.count ≡ self.old.count }
        ensures beyond { beyond self.new ≡ beyond self.old }
        ensures memory { memory.new ≡ memory.old }
    {
        let mut local = self.processes[p];
        local.pop(&mut memory[16 * p..16 * p + 16]);
        self.processes[p] = local;
    }

    /// Puts the message at the end of the queue of process p, which has room.
    pub(crate) fn deliver(&mut self, memory: &mut [Message], p: usize, message: Message)
        requires there { p < self.old.count }
        requires places { 16 * p + 16 ≤ length memory.old }
        requires room { full (world_of self.old memory.old) p ≡ false }
        ensures world { world_of self.new memory.new ≡ deliver (world_of self.old memory.old) p message }
        ensures count { self.new.count ≡ self.old.count }
        ensures beyond { beyond self.new ≡ beyond self.old }
        ensures after { after self.old memory.new ≡ after self.old memory.old }
    {
        let mut local = self.processes[p];
        local.receive(&mut memory[16 * p..16 * p + 16], message);
        self.processes[p] = local;
    }
}
