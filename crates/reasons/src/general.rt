//! What a refusal says by itself.
use crate::reason::{Fault, Reason};
use crate::sentence::Sentence;
use crate::spot::Spot;
use crate::wording::Named;
use refusal::fault::{Layer, Place, Refusal};

const CUT: &str = "the sheet ends before the field that begins here does";

const VERSION: &str = "not version 1, which alone is known";

const BEYOND: &str = "beyond its limit, or the number of a location or process that is not there";

const NOT_ZERO: &str = "not 0, where 0 has to be";

const BAD_NAME: &str =
    "not a length of 1 to 15 or a character of 33 to 126, or not where the names have to end";

const BEYOND_LIST: &str =
    "a list that is too long, or a process or signal with a number that cannot be";

const MISSING: &str = "a process, location, variable, timer or signal that it names is not there";

const UNFIT: &str = "its signal has the wrong class or destination";

const UNTRUE: &str = "its guard or its value is no expression";

const MALFORMED: &str =
    "an unknown number, a guard where none belongs, or something in a field that is not used";

const MIXED: &str = "both acting and waiting edges leave it";

const EXPRESSION: &str = "not 1 to 16 terms, or an operation above 15";

const FULL: &str = "no room, since the list is at its limit or its memory ends";

const NO_EDGE: &str = "there is no such edge";

const UNMARKED: &str = "no marks are kept";

const UNLIKE: &str =
    "its location or its queue places are missing, or the state does not fit the table, or that is beyond its limits";

const MISPLACED: &str = "its location or its queue places are missing";

const NOT_THERE: &str = "there is no edge, process, timer or inbound signal of that number";

const UNREADY: &str = "what the step needs of it is not so, or the edge of the step is wrong";

const QUEUE: &str = "its queue holds 16 messages already";

fn saying<'a>(spot: Spot<'a>, text: &'static str) -> Sentence<'a> {
    Sentence {
        spot,
        reason: Reason::General(text),
    }
}

/// With the process that the place names, if it names one.
pub fn general<'a>(refusal: Refusal, process: Named<'a>) -> Sentence<'a> {
    match refusal.place {
        Place::At(n) => general_at(refusal, n, process),
        Place::Pair(_, location) => {
            let spot = Spot::Location(process, location);
            match (refusal.layer, refusal.number) {
                (Layer::Table, 11) => saying(spot, MIXED),
                (Layer::Table, 12) => Sentence {
                    spot,
                    reason: Reason::Stuck,
                },
                _ => unknown(refusal),
            }
        }
    }
}

fn unknown<'a>(refusal: Refusal) -> Sentence<'a> {
    Sentence {
        spot: Spot::Unknown(refusal.place),
        reason: Reason::Unknown {
            number: refusal.number,
            layer: refusal.layer,
        },
    }
}

fn general_at<'a>(refusal: Refusal, n: usize, process: Named<'a>) -> Sentence<'a> {
    let bit = Spot::Bit(n);
    let edge = Spot::Edge(n);
    let process = Spot::Process(process);
    match (refusal.layer, refusal.number) {
        (Layer::Sheet, 1) => saying(bit, CUT),
        (Layer::Sheet, 2) => saying(bit, VERSION),
        (Layer::Sheet, 3) => saying(bit, BEYOND),
        (Layer::Sheet, 4) => saying(bit, NOT_ZERO),
        (Layer::Sheet, 5) => Sentence {
            spot: bit,
            reason: Reason::Field(Fault::Surplus(n / 8)),
        },
        (Layer::Sheet, 6) => saying(bit, BAD_NAME),
        (Layer::Table, 3) => saying(Spot::Number(n), BEYOND_LIST),
        (Layer::Edge, 7) => saying(edge, MISSING),
        (Layer::Edge, 8) => saying(edge, UNFIT),
        (Layer::Edge, 9) => saying(edge, UNTRUE),
        (Layer::Edge, 10) => saying(edge, MALFORMED),
        (Layer::Test, 13) => Sentence {
            spot: process,
            reason: Reason::NinthTimer,
        },
        (Layer::Test, 14) => Sentence {
            spot: Spot::ClosedTable,
            reason: Reason::ManyEdges(n),
        },
        (Layer::Book, 9) => saying(Spot::Term(n), EXPRESSION),
        (Layer::Book, 15) => saying(Spot::Item(n), FULL),
        (Layer::Book, 16) => saying(edge, NO_EDGE),
        (Layer::Book, 17) => saying(Spot::Book, UNMARKED),
        (Layer::State, 18) if n == 0 => saying(process, UNLIKE),
        (Layer::State, 18) => saying(process, MISPLACED),
        (Layer::State, 19) => saying(Spot::Number(n), NOT_THERE),
        (Layer::State, 20) => saying(process, UNREADY),
        (Layer::State, 21) => saying(process, QUEUE),
        (Layer::Output, 22) => Sentence {
            spot: Spot::Output,
            reason: Reason::Short(n),
        },
        _ => unknown(refusal),
    }
}
