//! Why a call on a book is refused.
ghost use Rattle.std.specs.Prelude.{◌≡◌};
ghost use Rattle.book.specs.Faults.{book_refusal};
ghost use Rattle.book.specs.declared.fault.BookFault.TheVariants.{Edge, Test};

use closing::fault::TestFault;
use refusal::fault::{BadEdge, Layer, Place, Refusal, TableFault};

#[derive(Clone, Copy, Debug, PartialEq, Eq)]
pub enum BookFault {
    /// The process or signal, by the number it would get, cannot be declared.
    Limit(usize),
    Edge(BadEdge),
    /// The book cannot be closed, so it is not marked.
    Test(TestFault),
    /// Not 1 to 16 terms, or an operation above 15; the number that the first term would get.
    Expression(usize),
    /// No room for the item, by the number it would get, or for one that the book has.
    Full(usize),
    /// There is no edge with the number.
    NoEdge(usize),
    Unmarked,
}

impl From<BadEdge> for BookFault {
    ghost from_gives = { λ b f. f ≡ Edge b };

    fn from(bad: BadEdge) -> BookFault {
        BookFault::Edge(bad)
    }
}

impl From<TestFault> for BookFault {
    ghost from_gives = { λ t f. f ≡ Test t };

    fn from(fault: TestFault) -> BookFault {
        BookFault::Test(fault)
    }
}

impl From<BookFault> for Refusal {
    ghost from_gives = { λ f r. r ≡ book_refusal f };

    fn from(fault: BookFault) -> Refusal {
        let (number, place) = match fault {
            BookFault::Edge(bad) => return Refusal::from(bad),
            BookFault::Test(fault) => return Refusal::from(fault),
            BookFault::Limit(place) => return Refusal::from(TableFault::Limit(place)),
            BookFault::Expression(place) => (9, place),
            BookFault::Full(place) => (15, place),
            BookFault::NoEdge(place) => (16, place),
            BookFault::Unmarked => (17, 0),
        };
        Refusal {
            number,
            layer: Layer::Book,
            place: Place::At(place),
            sheet: None,
        }
    }
}
