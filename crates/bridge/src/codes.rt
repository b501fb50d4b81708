//! Refusals and answers as numbers of 64 bits.
ghost use Rattle.std.specs.Prelude.{◌≡◌, ◌≤◌, ◌<◌};
ghost use Rattle.book.specs.Faults.{said};
ghost use Rattle.bridge.specs.Codes.{failed, inside_code, layer_code, message_code, number_code, packed, place_code};

use book::fault::BookFault;
use refusal::fault::{Layer, Place, Refusal};
use rules::step::Message;

/// There is no memory.
pub(crate) const FAILED: u64 = u64::MAX;

const REFUSED: u64 = 1 << 63;

const NUMBER: u64 = 1 << 55;

const LAYER: u64 = 1 << 52;

const PLACE: u64 = 1 << 26;

/// Says that a place is a process and a location.
const PAIR: u64 = 1 << 25;

/// Says that a message leaves.
const SENT: u64 = 1 << 24;

const SIGNAL: u64 = 1 << 16;

fn layer_code(layer: Layer) -> u64
    ensures value { result ≡ layer_code layer }
    ensures bound { result ≤ 6 }
{
    match layer {
        Layer::Sheet => 0,
        Layer::Edge => 1,
        Layer::Table => 2,
        Layer::Test => 3,
        Layer::Book => 4,
        Layer::State => 5,
        Layer::Output => 6,
    }
}

fn place_code(place: Place) -> u64
    ensures value { result ≡ place_code place }
    ensures bound { result < 67108864 }
{
    match place {
        Place::At(n) => (n as u64).min(PAIR - 1),
        Place::Pair(process, location) => {
            PAIR + 256 * (process as u64).min(255) + (location as u64).min(255)
        }
    }
}

fn inside_code(sheet: Option<usize>) -> u64
    ensures value { result ≡ inside_code sheet }
    ensures bound { result < 67108864 }
{
    sheet.map_or(0, |bit| 1 + (bit as u64).min(PLACE - 2))
}

pub(crate) fn packed(refusal: Refusal) -> u64
    ensures value { result ≡ packed refusal }
    ensures above { 9223372036854775808 ≤ result }
    ensures below { result < failed }
{
    let number = NUMBER * u64::from(refusal.number);
    let layer = LAYER * layer_code(refusal.layer);
    let place = PLACE * place_code(refusal.place);
    REFUSED + number + layer + place + inside_code(refusal.sheet)
}

pub(crate) fn message_code(message: Option<Message>) -> u64
    ensures { result ≡ message_code message }
{
    message.map_or(0, |message| {
        SENT + SIGNAL * u64::from(message.signal) + u64::from(message.value.cast_unsigned())
    })
}

/// What a call on a book answers.
pub(crate) fn number_code(answer: Result<usize, BookFault>) -> u64
    ensures { result ≡ number_code (said answer) }
{
    match answer {
        Ok(number) => number as u64,
        Err(fault) => packed(fault.into()),
    }
}
