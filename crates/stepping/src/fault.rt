//! Why a table cannot be started, and why a step cannot be made.
ghost use Rattle.std.specs.Prelude.{◌≡◌};
ghost use Rattle.stepping.specs.Faults.{start_refusal, state_refusal};
ghost use Rattle.rules.specs.Steps.{state_at};
ghost use Rattle.stepping.specs.declared.fault.StartFault.TheVariants.{Table};

use refusal::fault::{Layer, Place, Refusal, TableFault};

#[derive(Clone, Copy, Debug, PartialEq, Eq)]
pub enum StartFault {
    Table(TableFault),
    /// The queue places of the process are missing.
    NoPlaces(usize),
}

#[derive(Clone, Copy, Debug, PartialEq, Eq)]
pub enum StateFault {
    /// The state has another count of processes than the table, or the table is beyond its limits.
    Unlike,
    /// The location or the queue places of the process are missing.
    Misplaced(usize),
    /// There is no inbound signal, edge, process or timer of that number.
    Missing(usize),
    /// What the step needs of the process is not so.
    Unready(usize),
    /// The queue of the process has no room.
    Full(usize),
}

impl From<TableFault> for StartFault {
    ghost from_gives = { λ t f. f ≡ Table t };

    fn from(fault: TableFault) -> StartFault {
        StartFault::Table(fault)
    }
}

/// A refusal of layer state.
fn at_state(number: u8, place: usize) -> Refusal
    ensures { result ≡ state_at number place }
{
    Refusal {
        number,
        layer: Layer::State,
        place: Place::At(place),
        sheet: None,
    }
}

impl From<StartFault> for Refusal {
    ghost from_gives = { λ f r. r ≡ start_refusal f };

    fn from(fault: StartFault) -> Refusal {
        match fault {
            StartFault::Table(fault) => fault.into(),
            StartFault::NoPlaces(process) => at_state(18, process),
        }
    }
}

impl From<StateFault> for Refusal {
    ghost from_gives = { λ f r. r ≡ state_refusal f };

    fn from(fault: StateFault) -> Refusal {
        match fault {
            StateFault::Unlike => at_state(18, 0),
            StateFault::Misplaced(process) => at_state(18, process),
            StateFault::Missing(place) => at_state(19, place),
            StateFault::Unready(process) => at_state(20, process),
            StateFault::Full(process) => at_state(21, process),
        }
    }
}
