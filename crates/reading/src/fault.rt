//! What is wrong with a sheet.
ghost use Rattle.std.specs.Prelude.{◌≡◌};
ghost use Rattle.reading.specs.Faults.{sheet_refusal};
ghost use Rattle.reading.specs.declared.fault.SheetFault.TheVariants.{Edge};

use refusal::fault::{BadEdge, Layer, Place, Refusal};

/// Each with the first bit of what is wrong: of a field, of the surplus, or of the edge's record.
#[derive(Clone, Copy, Debug, PartialEq, Eq)]
pub enum SheetFault {
    /// The bytes end before the field does.
    Short(usize),
    Version(usize),
    /// A count or a field beyond its limit, or a first location or destination that is not there.
    Limit(usize),
    /// Fill, the number of a timer that is off, or an unused destination is not zero.
    NotZero(usize),
    /// A length or a character of a name.
    Name(usize),
    /// Bytes follow the last name.
    Surplus(usize),
    /// All bits are good, and an edge is not.
    Edge(EdgeAt),
}

/// A wrong edge, and the first bit of its record.
#[derive(Clone, Copy, Debug, PartialEq, Eq)]
pub struct EdgeAt {
    pub bad: BadEdge,
    pub bit: usize,
}

impl From<EdgeAt> for SheetFault {
    ghost from_gives = { λ e f. f ≡ Edge e };

    fn from(at: EdgeAt) -> SheetFault {
        SheetFault::Edge(at)
    }
}

impl From<SheetFault> for Refusal {
    ghost from_gives = { λ f r. r ≡ sheet_refusal f };

    fn from(fault: SheetFault) -> Refusal {
        let (number, bit) = match fault {
            SheetFault::Short(bit) => (1, bit),
            SheetFault::Version(bit) => (2, bit),
            SheetFault::Limit(bit) => (3, bit),
            SheetFault::NotZero(bit) => (4, bit),
            SheetFault::Surplus(bit) => (5, bit),
            SheetFault::Name(bit) => (6, bit),
            SheetFault::Edge(edge) => {
                return Refusal {
                    sheet: Some(edge.bit),
                    ..Refusal::from(edge.bad)
                };
            }
        };
        Refusal {
            number,
            layer: Layer::Sheet,
            place: Place::At(bit),
            sheet: None,
        }
    }
}
