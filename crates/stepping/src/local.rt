//! What one process does.
ghost use Rattle.std.specs.Prelude.{◌≡◌, ◌<◌, ◌≤◌, ◌&&◌, not, List, map, length, take, slice_index_or};
ghost use Rattle.std.specs.List.{slice_get, list_any};
ghost use Rattle.rules.specs.States.{begun, due, padded};
ghost use Rattle.rules.specs.Steps.{moved, received, dropped, lower, no_message};
ghost use Rattle.rules.specs.declared.step.Message.{Message};
ghost use Rattle.stepping.specs.Worlds.{running, assigned, turned, taken, cooled};
ghost use Rattle.table.specs.Lists.{meant};
ghost use Rattle.table.specs.Records.{kind_of};
ghost use Rattle.table.specs.declared.record.Timer.TheVariants.{Off};

use crate::state::Local;
use ring::Ring;
use rules::step::Message;
use table::record::{Edge, Kind, Process, Timer};

/// The items, filled up to eight with `rest`.
fn filled<T: Copy>(items: &[T], rest: T) -> [T; 8]
    requires { length items.now ≤ 8 }
    ensures { result ≡ padded 8 rest items.now }
{
    let mut all = [rest; 8];
    all[..items.len()].copy_from_slice(items);
    all
}

impl Local {
    /// The process at its start.
    pub(crate) fn begun(process: &Process) -> Self
        requires variables { process.now.variables ≤ 8 }
        requires timers { process.now.timers ≤ 8 }
        ensures { (ps : List Message) → running ps result ≡ begun (meant process.now) }
    {
        Local {
            location: process.first,
            variables: filled(&process.values[..usize::from(process.variables)], 0),
            timers: filled(&process.settings[..usize::from(process.timers)], Timer::Off),
            queue: Ring::new(),
        }
    }

    /// Variable n, if there is a place for it.
    pub(crate) fn variable(&self, n: usize) -> Option<i16>
        ensures { result ≡ slice_get self.now.variables n }
    {
        self.variables.get(n).copied()
    }

    /// Timer n, if there is a place for it.
    pub(crate) fn timer(&self, n: usize) -> Option<Timer>
        ensures { result ≡ slice_get self.now.timers n }
    {
        self.timers.get(n).copied()
    }

    /// The variables, of a process that has so many.
    pub(crate) fn scope(&self, count: u8) -> &[i16]
        requires { count ≤ 8 }
        ensures { result.now ≡ take count self.now.variables }
    {
        &self.variables[..usize::from(count)]
    }

    /// Whether the timer is at on(0).
    pub(crate) fn is_due(&self, timer: usize) -> bool
        ensures { result ≡ due (slice_index_or self.now.timers timer Off) }
    {
        self.timers.get(timer).is_some_and(is_due)
    }

    /// Whether one of the first so many timers is at on(0).
    fn has_due(&self, count: u8) -> bool
        requires { count ≤ 8 }
        ensures { result ≡ list_any due (take count self.now.timers) }
    {
        self.timers[..usize::from(count)].iter().any(is_due)
    }

    /// Whether there is no message, and none of the first so many timers is at on(0).
    #[tactic(auto, using(crate::proofs::Worlds::no_message_len))]
    pub(crate) fn is_idle(&self, count: u8) -> bool
        requires { count ≤ 8 }
        ensures { (ps : List Message) → length ps ≡ 16 → result ≡ (no_message (running ps self.now).queue && not (list_any due (take count (running ps self.now).timers))) }
    {
        self.queue.is_empty() && !self.has_due(count)
    }

    fn assign(&mut self, variable: u8, value: i16)
        ensures { (ps : List Message) → running ps self.new ≡ assigned variable value (running ps self.old) }
    {
        let i = usize::from(variable);
        if i < self.variables.len() {
            self.variables[i] = value;
        }
    }

    pub(crate) fn turn(&mut self, timer: usize, setting: Timer)
        ensures { (ps : List Message) → running ps self.new ≡ turned timer setting (running ps self.old) }
    {
        if timer < self.timers.len() {
            self.timers[timer] = setting;
        }
    }

    /// Takes the head off the queue.
    pub(crate) fn pop(&mut self, places: &mut [Message]) -> Option<Message>
        requires { length places.old ≡ 16 }
        ensures process { running places.new self.new ≡ dropped (running places.old self.old) }
        ensures head { result ≡ slice_get (running places.old self.old).queue 0 }
        ensures places { places.new ≡ places.old }
    {
        self.queue.remove(places)
    }

    /// Takes the head off the queue; its value goes into the variable, if there is one.
    fn take(&mut self, places: &mut [Message], variable: Option<u8>)
        requires { length places.old ≡ 16 }
        ensures process { running places.new self.new ≡ taken variable (running places.old self.old) }
        ensures places { places.new ≡ places.old }
    {
        let value = self.pop(places).map_or(0, |message| message.value);
        if let Some(variable) = variable {
            self.assign(variable, value);
        }
    }

    /// Puts the message at the end of the queue, which has room.
    pub(crate) fn receive(&mut self, places: &mut [Message], message: Message)
        requires places { length places.old ≡ 16 }
        requires room { length (running places.old self.old).queue < 16 }
        ensures { running places.new self.new ≡ received message (running places.old self.old) }
    {
        let appended = self.queue.append(places, message);
        prove!(appended.is_ok());
    }

    /// One tick of the timers of a process that has so many.
    #[tactic(auto, unfolding(rules::specs::Steps::lowered))]
    pub(crate) fn cool(&mut self, count: u8)
        requires { count ≤ 8 }
        ensures { (ps : List Message) → running ps self.new ≡ cooled count (running ps self.old) }
    {
        let mut timers = self.timers;
        lower_all(&mut timers[..usize::from(count)]);
        self.timers = timers;
    }

    /// Moves along the edge, whose value is given.
    pub(crate) fn follow(&mut self, places: &mut [Message], edge: &Edge, value: i16)
        requires { length places.old ≡ 16 }
        ensures process { running places.new self.new ≡ moved (kind_of edge.now.kind) value edge.now (running places.old self.old) }
        ensures places { places.new ≡ places.old }
    {
        self.location = edge.to;
        let first = usize::from(edge.first);
        match edge.does() {
            Kind::Input => self.take(places, edge.stored()),
            Kind::Assignment => self.assign(edge.first, value),
            Kind::Set => self.turn(first, Timer::On(u16::try_from(value).unwrap_or(0))),
            Kind::Reset | Kind::Timeout => self.turn(first, Timer::Off),
            Kind::Rearm => self.turn(first, Timer::On(edge.second.into())),
            Kind::Output | Kind::Skip | Kind::Unknown => {}
        }
    }
}

fn lower_all(timers: &mut [Timer])
    ensures { timers.new ≡ map lower timers.old }
{
    for timer in timers {
        *timer = lowered(*timer);
    }
}

fn lowered(timer: Timer) -> Timer
    ensures { result ≡ lower timer }
{
    match timer {
        Timer::Off => Timer::Off,
        Timer::On(ticks) => Timer::On(ticks.saturating_sub(1)),
    }
}

fn is_due(timer: &Timer) -> bool
    ensures { result ≡ due timer.now }
{
    *timer == Timer::On(0)
}
