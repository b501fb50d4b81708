//! Refusals as people read them.
ghost use Rattle.std.specs.Prelude.{◌≡◌, Some};
ghost use Rattle.refusal.specs.Refusals.{edge_number, edge_refusal, table_refusal};
ghost use Rattle.refusal.specs.Reports.{layer_text, place_text, refusal_text};

use crate::fault::{BadEdge, EdgeFault, Layer, Place, Refusal, TableFault};
use std::fmt;

impl EdgeFault {
    pub fn number(&self) -> u8
        ensures { result ≡ edge_number self.now }
    {
        match self {
            EdgeFault::Missing => 7,
            EdgeFault::Unfit => 8,
            EdgeFault::Malformed => 10,
            EdgeFault::Expression => 9,
        }
    }
}

impl From<BadEdge> for Refusal {
    ghost from_gives = { λ b r. r ≡ edge_refusal b };

    fn from(bad: BadEdge) -> Refusal {
        Refusal {
            number: bad.fault.number(),
            layer: Layer::Edge,
            place: Place::At(bad.edge),
            sheet: None,
        }
    }
}

impl From<TableFault> for Refusal {
    ghost from_gives = { λ f r. r ≡ table_refusal f };

    fn from(fault: TableFault) -> Refusal {
        let (number, place) = match fault {
            TableFault::Edge(bad) => return Refusal::from(bad),
            TableFault::Limit(place) => (3, Place::At(place)),
            TableFault::Mixed { process, location } => (11, Place::Pair(process, location)),
            TableFault::Stuck { process, location } => (12, Place::Pair(process, location)),
        };
        Refusal {
            number,
            layer: Layer::Table,
            place,
            sheet: None,
        }
    }
}

impl fmt::Display for Layer {
    ghost output = { λ l. Some (layer_text l) };

    fn fmt<W: fmt::Write>(&self, f: &mut fmt::Formatter<W>) -> fmt::Result {
        let name = match self {
            Layer::Sheet => "sheet",
            Layer::Edge => "edge",
            Layer::Table => "table",
            Layer::Test => "test",
            Layer::Book => "book",
            Layer::State => "state",
            Layer::Output => "output",
        };
        write!(f, "{name}")
    }
}

impl fmt::Display for Place {
    ghost output = { λ p. Some (place_text p) };

    fn fmt<W: fmt::Write>(&self, f: &mut fmt::Formatter<W>) -> fmt::Result {
        match self {
            Place::At(n) => write!(f, "{n}"),
            Place::Pair(process, location) => write!(f, "{process} {location}"),
        }
    }
}

impl fmt::Display for Refusal {
    ghost output = { λ r. Some (refusal_text r) };

    fn fmt<W: fmt::Write>(&self, f: &mut fmt::Formatter<W>) -> fmt::Result {
        let number = self.number;
        let layer = &self.layer;
        let place = &self.place;
        match self.sheet {
            None => write!(f, "refused {number} {layer} {place}"),
            Some(bit) => write!(f, "refused {number} {layer} {place} sheet {bit}"),
        }
    }
}
