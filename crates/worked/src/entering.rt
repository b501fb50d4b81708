//! The calls that make the worked example, with refused ones among them.

use crate::desk::Desk;
use crate::records::{edge, guarded, otherwise, process, signal, term, valued};
use table::record::{Class, Edge, Kind, Operation};

/// The processes and signals.
pub fn declare(rt: &HostRuntime, desk: &mut Desk) -> anyhow::Result<()> {
    desk.signal(
        rt,
        "req, before there is a process",
        signal(Class::Inbound, 0),
    )?;
    desk.process(rt, "rx", &process(3, 2, [0, 7, 0, 0, 0, 0, 0, 0]))?;
    desk.process(rt, "of no location", &process(0, 0, [0; 8]))?;
    desk.process(rt, "tx", &process(2, 1, [0; 8]))?;
    desk.signal(rt, "req, inbound to rx", signal(Class::Inbound, 0))?;
    desk.signal(rt, "go, internal to tx", signal(Class::Internal, 1))?;
    desk.signal(rt, "ack, outbound", signal(Class::Outbound, 0))
}

pub fn write_expressions(rt: &HostRuntime, desk: &mut Desk) -> anyhow::Result<()> {
    let x0 = term(Operation::Variable, 0);
    desk.expression(rt, "of no term", &[])?;
    desk.expression(rt, "x0", &[x0])?;
    desk.expression(rt, "x1", &[term(Operation::Variable, 1)])?;
    let less = [term(Operation::Number, 0), x0, term(Operation::Less, 0)];
    desk.expression(rt, "0 less x0", &less)?;
    desk.expression(rt, "of four terms, for which no place is left", &[x0; 4])
}

/// Edge 2 of the worked example.
fn set() -> Edge {
    valued(edge(0, 2, 0, Kind::Set, 0), 1)
}

pub fn draw_edges(rt: &HostRuntime, desk: &mut Desk) -> anyhow::Result<()> {
    let input = edge(0, 0, 1, Kind::Input, 0);
    desk.edge(rt, "rx 0 to 1, input req into x0", input)?;
    desk.edge(rt, "rx 0 to 9, which is not there", Edge { to: 9, ..input })?;
    desk.edge(
        rt,
        "rx 1 to 2, output go of x0",
        valued(edge(0, 1, 2, Kind::Output, 1), 0),
    )?;
    desk.edge(rt, "rx 2 to 0, set t0 to x1", set())?;
    desk.edge(rt, "rx 0 to 0, timeout t0", edge(0, 0, 0, Kind::Timeout, 0))?;
    desk.edge(
        rt,
        "tx 0 to 1, input of rx's signal",
        edge(1, 0, 1, Kind::Input, 0),
    )?;
    desk.edge(
        rt,
        "tx 0 to 1, input go into x0",
        edge(1, 0, 1, Kind::Input, 1),
    )?;
    let set = valued(edge(1, 1, 0, Kind::Set, 0), 0);
    desk.edge(
        rt,
        "tx 1 to 0 where 0 less x0, set t0 to x0",
        guarded(set, 2),
    )?;
    let output = valued(edge(1, 1, 0, Kind::Output, 2), 0);
    desk.edge(rt, "tx 1 to 0 else, output ack of x0", otherwise(output))
}

/// Marks, changes an edge and changes it back: each time the marks are gone.
pub fn mark_and_change(rt: &HostRuntime, desk: &mut Desk) -> anyhow::Result<()> {
    desk.ready(rt)?;
    desk.mark(rt)?;
    desk.ready(rt)?;
    let other = valued(edge(0, 2, 0, Kind::Set, 0), 0);
    desk.change(rt, 7, "the same, where there is none", other)?;
    desk.ready(rt)?;
    desk.change(rt, 2, "rx 2 to 0, set t0 to x0", other)?;
    desk.ready(rt)?;
    desk.mark(rt)?;
    desk.change(rt, 2, "rx 2 to 0, set t0 to x1", set())?;
    desk.strike(rt, 7)?;
    desk.ready(rt)?;
    desk.mark(rt)?;
    desk.ready(rt)
}
