//! Where something is refused, for people.
use crate::field::{Field, Owner};
use crate::wording::{Named, kind_name};
use refusal::fault::Place;
use std::fmt;
use table::record::Kind;

#[derive(Clone, Copy)]
pub enum Spot<'a> {
    Bit(usize),
    Field(usize, Field),
    Edge(usize),
    Move {
        edge: usize,
        process: Named<'a>,
        from: u8,
        to: u8,
        kind: Kind,
    },
    Process(Named<'a>),
    Location(Named<'a>, usize),
    /// A number that does not tell of what list.
    Number(usize),
    /// A place in a list of a book, not told in which.
    Item(usize),
    Term(usize),
    ClosedTable,
    Book,
    Output,
    Unknown(Place),
}

impl fmt::Display for Spot<'_> {
    fn fmt<W: fmt::Write>(&self, f: &mut fmt::Formatter<W>) -> fmt::Result {
        match self {
            Spot::Bit(bit) => write!(f, "bit {bit}"),
            Spot::Field(bit, field) => write!(f, "bit {bit}, {field}"),
            Spot::Edge(edge) => write!(f, "edge {edge}"),
            Spot::Move {
                edge,
                process,
                from,
                to,
                kind,
            } => {
                let kind = kind_name(*kind);
                if let Named::Number(Owner::Process(p)) = process {
                    write!(f, "edge {edge}, process {p}, {from} to {to}, {kind}")
                } else {
                    write!(f, "edge {edge}, {process} {from} to {to}, {kind}")
                }
            }
            Spot::Process(process) => write!(f, "{process}"),
            Spot::Location(process, location) => write!(f, "{process}, location {location}"),
            Spot::Number(number) => write!(f, "number {number}"),
            Spot::Term(term) => write!(f, "term {term}"),
            Spot::Item(number) => write!(f, "item {number}"),
            Spot::ClosedTable => write!(f, "closed table"),
            Spot::Book => write!(f, "book"),
            Spot::Output => write!(f, "output"),
            Spot::Unknown(place) => write!(f, "place {place}"),
        }
    }
}
