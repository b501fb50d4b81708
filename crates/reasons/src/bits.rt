//! What is said of a sheet whose bits are refused.
use crate::field::{Field, field_at, number_at};
use crate::reason::{Beyond, Fault, Reason};
use crate::sentence::Sentence;
use crate::spot::Spot;
use reading::fault::SheetFault;
use refusal::fault::{Place, Refusal};
use table::limits;
use table::record::Class;

/// Where the sheet is refused with this fault of its bits.
pub fn of_bits<'a>(refusal: Refusal, fault: SheetFault, bytes: &[u8]) -> Option<Sentence<'a>> {
    match refusal.place {
        Place::At(bit) if refusal == Refusal::from(fault) => of_field(refusal.number, bytes, bit),
        _ => None,
    }
}

/// Of the field at this bit, which the sheet in these bytes is refused for.
fn of_field<'a>(number: u8, bytes: &[u8], bit: usize) -> Option<Sentence<'a>> {
    let field = field_at(bytes, bit);
    let fault = find_fault(number, field, bytes, bit)?;
    Some(Sentence {
        spot: Spot::Field(bit, field),
        reason: Reason::Field(fault),
    })
}

/// What is wrong with the field.
fn find_fault(number: u8, field: Field, bytes: &[u8], bit: usize) -> Option<Fault> {
    match number {
        1 => Some(Fault::Cut),
        2 => Some(Fault::Version(number_at(bytes, bit, 8))),
        3 => find_beyond(field, bytes, bit).map(Fault::Beyond),
        4 => find_not_zero(field, bytes, bit),
        5 => Some(Fault::Surplus(bit / 8)),
        _ => find_bad_name(field, number_at(bytes, bit, 8)),
    }
}

/// What a field with limits holds, and what they are.
fn find_beyond(field: Field, bytes: &[u8], bit: usize) -> Option<Beyond> {
    let (width, least, most) = match field {
        Field::Processes => (4, 1, limits::PROCESSES as u16),
        Field::Signals => (7, 0, limits::SIGNALS as u16),
        Field::Edges => (12, 0, limits::EDGES as u16),
        Field::Terms => (13, 0, limits::TERMS as u16),
        Field::Variables(_) => (4, 0, limits::VARIABLES as u16),
        Field::Timers(_) => (4, 0, limits::TIMERS as u16),
        Field::First(_) => (4, 0, number_at(bytes, bit.saturating_sub(12), 4)),
        Field::Class(_) => (3, 0, Class::Absent as u16),
        Field::Destination(_) => (3, 0, number_at(bytes, 8, 4).saturating_sub(1)),
        _ => return None,
    };
    Some(Beyond {
        field,
        value: number_at(bytes, bit, width),
        least,
        most,
    })
}

fn find_not_zero(field: Field, bytes: &[u8], bit: usize) -> Option<Fault> {
    match field {
        Field::Fill => Some(Fault::Fill(number_at(bytes, bit, (8 - bit % 8) % 8))),
        Field::Timer { .. } => Some(Fault::OffTimer(number_at(bytes, bit, 15))),
        Field::Destination(_) => Some(Fault::NoDestination {
            value: number_at(bytes, bit, 3),
            class: Class::from((number_at(bytes, bit.saturating_sub(3), 3) % 8) as u8),
        }),
        _ => None,
    }
}

fn find_bad_name(field: Field, byte: u16) -> Option<Fault> {
    match field {
        Field::Length(_) => Some(Fault::Length(byte)),
        Field::Character(_) => Some(Fault::Character(byte)),
        _ => None,
    }
}
