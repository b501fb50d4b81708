//! The records of the worked example.

use table::record::{Class, Edge, Kind, Mode, Operation, Process, Signal, Span, Term, Timer};

/// The processes of the worked example have one timer each, which is off at first.
pub fn process(locations: u8, variables: u8, values: [i16; 8]) -> Process {
    Process {
        locations,
        first: 0,
        variables,
        timers: 1,
        values,
        settings: [Timer::Off; 8],
    }
}

pub fn signal(class: Class, destination: u8) -> Signal {
    Signal {
        class: class as u8,
        destination,
    }
}

pub fn term(operation: Operation, argument: i16) -> Term {
    Term {
        operation: operation as u8,
        argument,
    }
}

pub fn edge(process: u8, from: u8, to: u8, kind: Kind, first: u8) -> Edge {
    Edge {
        process,
        from,
        to,
        kind: kind as u8,
        first,
        ..Edge::default()
    }
}

/// The edge with one term as its value.
pub fn valued(edge: Edge, start: u16) -> Edge {
    Edge {
        value: Span { start, count: 1 },
        ..edge
    }
}

/// The edge with a guard of three terms.
pub fn guarded(edge: Edge, start: u16) -> Edge {
    Edge {
        mode: Mode::Expression as u8,
        guard: Span { start, count: 3 },
        ..edge
    }
}

pub fn otherwise(edge: Edge) -> Edge {
    Edge {
        mode: Mode::Else as u8,
        ..edge
    }
}
