//! The open table and the closed one, side by side.

use crate::desk::Desk;
use crate::running::Run;
use rules::step::Step;
use table::questions::Table;

/// A step of the open table, and those of the closed one that match it.
#[derive(Clone, Copy)]
struct Match {
    open: Step,
    closed: &'static [Step],
}

fn trace() -> [Match; 7] {
    [
        matched(offer(0), &[]),
        matched(Step::Move(0), &[Step::Move(0)]),
        matched(Step::Move(1), &[Step::Move(1)]),
        matched(Step::Move(2), &[Step::Move(2)]),
        matched(Step::Move(4), &[Step::Move(4)]),
        matched(Step::Move(5), &[Step::Move(5)]),
        matched(Step::Tick, &[Step::Move(7), Step::Move(9), Step::Tick]),
    ]
}

fn offer(signal: u16) -> Step {
    Step::Offer { signal, value: 5 }
}

fn matched(open: Step, closed: &'static [Step]) -> Match {
    Match { open, closed }
}

/// Closes the book, and runs both tables along the trace. What differs is marked: rx's x0, which came from outside, and what tx
/// makes of it; and the chaos timer, which the open table has not.
pub fn side_by_side(rt: &HostRuntime, desk: &Desk) -> anyhow::Result<()> {
    let view = desk.book.view(&desk.edges, &desk.terms);
    let layer = desk.book.close(&desk.edges, &desk.terms);
    println!(rt;
        "close: {} edges, {} when closed",
        view.edge_count(),
        layer.edge_count()
    )?;
    let mut open = Run::begin(rt, "open", &view)?;
    let mut closed = Run::begin(rt, "closed", &layer)?;
    for Match {
        open: call,
        closed: calls,
    } in trace() {
        open.take(rt, call)?;
        open.tell(rt)?;
        closed.take_all(rt, calls)?;
        closed.tell(rt)?;
    }
    refused_steps(rt, &mut open)
}

/// Steps that the open table refuses where it is then, and an offer too many.
fn refused_steps<T: Table>(rt: &HostRuntime, open: &mut Run<'_, T>) -> anyhow::Result<()> {
    open.take(rt, Step::Move(0))?;
    open.take(rt, Step::Move(7))?;
    open.take(rt, offer(1))?;
    open.take(rt, Step::Discard(1))?;
    open.take(
        rt,
        Step::Expire {
            process: 0,
            timer: 0,
        },
    )?;
    open.take(
        rt,
        Step::Expire {
            process: 0,
            timer: 1,
        },
    )?;
    for _ in 0..17 {
        open.take(rt, offer(0))?;
    }
    Ok(())
}
