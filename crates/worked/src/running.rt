//! A table as it runs, told step by step.

use crate::telling::tell_refusal;
use refusal::fault::Refusal;
use rules::step::{Message, Step};
use stepping::start::start;
use stepping::state::State;
use stepping::step::step;
use table::questions::{Table, process_or_blank};
use table::record::Timer;

const NO_MESSAGE: Message = Message {
    signal: 0,
    value: 0,
};

/// With its queue memory, and a name to tell it by.
#[derive(Drop)]
pub struct Run<'a, T: Table> {
    name: &'static str,
    table: &'a T,
    state: State,
    memory: Vec<Message>,
}

impl<'a, T: Table> Run<'a, T> {
    /// The table at its start.
    pub fn begin(rt: &HostRuntime, name: &'static str, table: &'a T) -> anyhow::Result<Run<'a, T>> {
        let mut state = State::new();
        let memory = vec![in rt.alloc(); NO_MESSAGE; 128]?;
        if let Err(fault) = start(table, &mut state, &memory) {
            print!(rt; "{name} start: ")?;
            tell_refusal(rt, Refusal::from(fault))?;
        }
        Ok(Run {
            name,
            table,
            state,
            memory,
        })
    }

    /// Takes the step, and says so; or says why not.
    pub fn take(&mut self, rt: &HostRuntime, call: Step) -> anyhow::Result<()> {
        print!(rt; "{} ", self.name)?;
        tell_step(rt, call)?;
        match step(self.table, &mut self.state, &mut self.memory, call) {
            Ok(None) => println!(rt; "")?,
            Ok(Some(message)) => println!(rt; ", out goes {}({})", message.signal, message.value)?,
            Err(fault) => {
                print!(rt; ": ")?;
                tell_refusal(rt, Refusal::from(fault))?;
            }
        }
        Ok(())
    }

    pub fn take_all(&mut self, rt: &HostRuntime, calls: &[Step]) -> anyhow::Result<()> {
        for call in calls {
            self.take(rt, *call)?;
        }
        Ok(())
    }

    /// Where the processes are.
    pub fn tell(&self, rt: &HostRuntime) -> anyhow::Result<()> {
        for p in 0..self.table.process_count() {
            let process = process_or_blank(self.table, p);
            print!(rt; "    {p} at {}", self.state.location(p).unwrap_or(0))?;
            for n in 0..usize::from(process.variables) {
                print!(rt; ", x{n} {}", self.state.variable(p, n).unwrap_or(0))?;
            }
            for n in 0..usize::from(process.timers) {
                match self.state.timer(p, n) {
                    Some(Timer::On(ticks)) => print!(rt; ", t{n} on({ticks})")?,
                    _ => print!(rt; ", t{n} off")?,
                }
            }
            println!(rt; ", queue {}", self.state.message_count(p).unwrap_or(0))?;
        }
        Ok(())
    }
}

/// A step as people write it.
fn tell_step(rt: &HostRuntime, call: Step) -> anyhow::Result<()> {
    match call {
        Step::Offer { signal, value } => print!(rt; "E {signal} {value}")?,
        Step::Move(edge) => print!(rt; "M {edge}")?,
        Step::Discard(process) => print!(rt; "D {process}")?,
        Step::Expire { process, timer } => print!(rt; "X {process} {timer}")?,
        Step::Tick => print!(rt; "K")?,
    }
    Ok(())
}
