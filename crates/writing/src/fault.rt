//! What is wrong with a table, its names or the room for its sheet.
ghost use Rattle.std.specs.Prelude.{◌≡◌};
ghost use Rattle.writing.specs.Faults.{write_refusal};
ghost use Rattle.writing.specs.declared.fault.WriteFault.TheVariants.{Table};

use refusal::fault::{Layer, Place, Refusal, TableFault};

#[derive(Clone, Copy, Debug, PartialEq, Eq)]
pub enum WriteFault {
    /// The table has no process, or more than a sheet counts.
    Processes,
    /// A list, a process, a signal or an edge of the table.
    Table(TableFault),
    /// The name area, from this bit on.
    Names(usize),
    /// The output has no room for the sheet, which takes so many bytes.
    Short(usize),
}

impl From<TableFault> for WriteFault {
    ghost from_gives = { λ t f. f ≡ Table t };

    fn from(fault: TableFault) -> WriteFault {
        WriteFault::Table(fault)
    }
}

impl From<WriteFault> for Refusal {
    ghost from_gives = { λ f r. r ≡ write_refusal f };

    fn from(fault: WriteFault) -> Refusal {
        let (number, layer, place) = match fault {
            WriteFault::Table(table) => return Refusal::from(table),
            WriteFault::Processes => (3, Layer::Sheet, 8),
            WriteFault::Names(bit) => (6, Layer::Sheet, bit),
            WriteFault::Short(bytes) => (22, Layer::Output, bytes),
        };
        Refusal {
            number,
            layer,
            place: Place::At(place),
            sheet: None,
        }
    }
}
