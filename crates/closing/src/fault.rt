//! Why a table cannot be closed.
ghost use Rattle.std.specs.Prelude.{◌≡◌};
ghost use Rattle.closing.specs.Faults.{test_refusal};
ghost use Rattle.closing.specs.declared.fault.TestFault.TheVariants.{Table};

use refusal::fault::{Layer, Place, Refusal, TableFault};

#[derive(Clone, Copy, Debug, PartialEq, Eq)]
pub enum TestFault {
    Table(TableFault),
    /// The process needs a chaos timer and has eight timers of its own.
    NinthTimer(usize),
    /// The closed table would have so many edges.
    Edges(usize),
}

impl From<TableFault> for TestFault {
    ghost from_gives = { λ t f. f ≡ Table t };

    fn from(fault: TableFault) -> TestFault {
        TestFault::Table(fault)
    }
}

impl From<TestFault> for Refusal {
    ghost from_gives = { λ f r. r ≡ test_refusal f };

    fn from(fault: TestFault) -> Refusal {
        let (number, place) = match fault {
            TestFault::Table(fault) => return Refusal::from(fault),
            TestFault::NinthTimer(process) => (13, process),
            TestFault::Edges(count) => (14, count),
        };
        Refusal {
            number,
            layer: Layer::Test,
            place: Place::At(place),
            sheet: None,
        }
    }
}
