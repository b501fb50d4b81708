//! What is refused, and how a refusal is told: by number, layer and place.

/// What looked and refused.
#[derive(Clone, Copy, Debug, PartialEq, Eq)]
pub enum Layer {
    Sheet,
    Edge,
    Table,
    Test,
    Book,
    State,
    Output,
}

/// Where: one number, or a process and a location.
#[derive(Clone, Copy, Debug, PartialEq, Eq)]
pub enum Place {
    At(usize),
    Pair(usize, usize),
}

/// A refusal as people read it. One that was met inside a sheet also has the bit of the sheet's record.
#[derive(Clone, Copy, Debug, PartialEq, Eq)]
pub struct Refusal {
    pub number: u8,
    pub layer: Layer,
    pub place: Place,
    pub sheet: Option<usize>,
}

/// What is wrong with an edge.
#[derive(Clone, Copy, Debug, PartialEq, Eq)]
pub enum EdgeFault {
    /// A process, location, variable, timer or signal that is not there.
    Missing,
    /// A signal of the wrong class or destination.
    Unfit,
    /// An unknown kind, mode or rearm number, a guard where none belongs, or an unused field that is not zero.
    Malformed,
    /// A guard or value that is no expression.
    Expression,
}

/// An edge that is wrong, by its number.
#[derive(Clone, Copy, Debug, PartialEq, Eq)]
pub struct BadEdge {
    pub edge: usize,
    pub fault: EdgeFault,
}

/// What is wrong with a table.
#[derive(Clone, Copy, Debug, PartialEq, Eq)]
pub enum TableFault {
    /// A list, process or signal beyond its limit; the place is that of the process or signal, 0 for a list.
    Limit(usize),
    Edge(BadEdge),
    /// An acting edge and a waiting one leave the same location.
    Mixed { process: usize, location: usize },
    /// An acting location with neither an unguarded nor an else edge.
    Stuck { process: usize, location: usize },
}
