//! That the calls succeed where there is memory, and what they answer then.
use crate::seal::{seal, seal_into};

/// One process of one location, called a. Closing leaves it as it is.
const SMALLEST: [u8; 10] = [0x01, 0x10, 0, 0, 0, 0, 0, 0, 0x01, 0x61];

/// The worked example.
const EXAMPLE: [u8; 104] = [
    0x01, 0x20, 0x60, 0x0e, 0, 0x52, 0x21, 0, 0, 0, 0, 0x70, 0, 0x01, 0x11, 0, 0, 0, 0, 0x02, 0x01,
    0x40, 0, 0x80, 0, 0, 0, 0, 0, 0, 0x91, 0x04, 0, 0, 0, 0, 0x04, 0x10, 0x30, 0, 0, 0, 0, 0x08,
    0x40, 0x05, 0, 0, 0, 0, 0, 0, 0x80, 0x80, 0x40, 0, 0, 0, 0, 0x08, 0x83, 0, 0x10, 0x02, 0x18, 0,
    0x04, 0x88, 0x10, 0x82, 0, 0, 0, 0, 0x44, 0, 0, 0x40, 0, 0x40, 0, 0, 0x40, 0, 0x14, 0, 0, 0x02,
    0x72, 0x78, 0x02, 0x74, 0x78, 0x03, 0x72, 0x65, 0x71, 0x02, 0x67, 0x6f, 0x03, 0x61, 0x63, 0x6b,
];

/// The worked example closed.
const CLOSED: [u8; 129] = [
    0x01, 0x20, 0x60, 0x14, 0, 0x52, 0x22, 0, 0, 0, 0, 0x70, 0, 0x08, 0, 0x01, 0x11, 0, 0, 0, 0,
    0x06, 0x01, 0x60, 0, 0xe0, 0x40, 0, 0, 0, 0, 0, 0x91, 0x04, 0, 0, 0, 0, 0, 0x10, 0x30, 0, 0, 0,
    0, 0x08, 0x40, 0x05, 0, 0, 0, 0, 0, 0, 0x80, 0x80, 0x40, 0, 0, 0, 0, 0x08, 0x83, 0, 0, 0, 0, 0,
    0, 0x88, 0x70, 0, 0, 0, 0, 0, 0, 0x06, 0x04, 0x40, 0, 0, 0, 0, 0x80, 0x50, 0, 0, 0, 0, 0, 0x08,
    0x06, 0, 0x40, 0, 0, 0, 0, 0x40, 0, 0x04, 0, 0x04, 0, 0, 0x04, 0, 0x01, 0x40, 0, 0, 0x02, 0x72,
    0x78, 0x02, 0x74, 0x78, 0x03, 0x72, 0x65, 0x71, 0x02, 0x67, 0x6f, 0x03, 0x61, 0x63, 0x6b,
];

const SUMMARY: &str =
    "2 processes, 3 signals\n7 edges, closed 10\n7 of 13 instances marked\nchaos timers: rx t1\nawaiting chaos: 0\nskipped: 6\nemptied: 1 5\nopened: 5 6\n";

#[test]
fn a_sheet_is_sealed(rt: HostRuntime) {
    match seal(rt.alloc(), &SMALLEST) {
        Ok(sealed) => assert_eq!(rt; sealed.sheet.as_slice(), SMALLEST.as_slice()),
        Err(error) => panic!(rt; "{error:?}"),
    }
}

#[test]
fn the_worked_example_is_sealed(rt: HostRuntime) {
    match seal(rt.alloc(), &EXAMPLE) {
        Ok(sealed) => {
            assert_eq!(rt; sealed.sheet.as_slice(), CLOSED.as_slice());
            assert_eq!(rt; sealed.summary.as_str(), SUMMARY);
        }
        Err(error) => panic!(rt; "{error:?}"),
    }
}

#[test]
fn a_sheet_is_sealed_into_lent_bytes(rt: HostRuntime) {
    let mut output = [7; 11];
    assert_eq!(rt; seal_into(&SMALLEST, &mut output[..9]), Ok(10));
    assert_eq!(rt; output, [7; 11]);
    assert_eq!(rt; seal_into(&SMALLEST, &mut output), Ok(10));
    assert_eq!(rt; output[..10], SMALLEST[..]);
    assert_eq!(rt; output[10], 7);
}
