//! That the calls succeed where there is memory, and what they answer then.
use crate::list;
use refusal::failure::Failure;
use refusal::fault::{Layer, Place, Refusal};

/// One process of one location, called a.
const SMALLEST: [u8; 10] = [0x01, 0x10, 0, 0, 0, 0, 0, 0, 0x01, 0x61];

/// The worked example.
const EXAMPLE: [u8; 104] = [
    0x01, 0x20, 0x60, 0x0e, 0, 0x52, 0x21, 0, 0, 0, 0, 0x70, 0, 0x01, 0x11, 0, 0, 0, 0, 0x02, 0x01,
    0x40, 0, 0x80, 0, 0, 0, 0, 0, 0, 0x91, 0x04, 0, 0, 0, 0, 0x04, 0x10, 0x30, 0, 0, 0, 0, 0x08,
    0x40, 0x05, 0, 0, 0, 0, 0, 0, 0x80, 0x80, 0x40, 0, 0, 0, 0, 0x08, 0x83, 0, 0x10, 0x02, 0x18, 0,
    0x04, 0x88, 0x10, 0x82, 0, 0, 0, 0, 0x44, 0, 0, 0x40, 0, 0x40, 0, 0, 0x40, 0, 0x14, 0, 0, 0x02,
    0x72, 0x78, 0x02, 0x74, 0x78, 0x03, 0x72, 0x65, 0x71, 0x02, 0x67, 0x6f, 0x03, 0x61, 0x63, 0x6b,
];

const MARKS: &str = "0 0 x0\n0 1 x0\n0 2 x0\n1 0 x0\n1 0 t0\n1 1 x0\n1 1 t0\n7 of 13\n";

#[test]
fn sheets_are_listed(rt: HostRuntime) {
    let cases: [(&[u8], &str); 2] = [(&SMALLEST, "0 of 0\n"), (&EXAMPLE, MARKS)];
    for (sheet, listing) in cases {
        match list(rt.alloc(), sheet) {
            Ok(text) => assert_eq!(rt; text.as_str(), listing),
            Err(failure) => panic!(rt; "{failure:?}"),
        }
    }
}

#[test]
fn refusals_are_told(rt: HostRuntime) {
    let no_sheet = Refusal {
        number: 1,
        layer: Layer::Sheet,
        place: Place::At(0),
        sheet: None,
    };
    match list(rt.alloc(), &[]) {
        Ok(text) => panic!(rt; "{text}"),
        Err(failure) => assert_eq!(rt; failure, Failure::Refused(no_sheet)),
    }
}
