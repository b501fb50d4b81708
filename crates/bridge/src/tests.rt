//! That the call with a heap succeeds where there is memory, and what it answers then.
use crate::funavolem_marks;

/// The worked example.
const EXAMPLE: [u8; 104] = [
    0x01, 0x20, 0x60, 0x0e, 0, 0x52, 0x21, 0, 0, 0, 0, 0x70, 0, 0x01, 0x11, 0, 0, 0, 0, 0x02, 0x01,
    0x40, 0, 0x80, 0, 0, 0, 0, 0, 0, 0x91, 0x04, 0, 0, 0, 0, 0x04, 0x10, 0x30, 0, 0, 0, 0, 0x08,
    0x40, 0x05, 0, 0, 0, 0, 0, 0, 0x80, 0x80, 0x40, 0, 0, 0, 0, 0x08, 0x83, 0, 0x10, 0x02, 0x18, 0,
    0x04, 0x88, 0x10, 0x82, 0, 0, 0, 0, 0x44, 0, 0, 0x40, 0, 0x40, 0, 0, 0x40, 0, 0x14, 0, 0, 0x02,
    0x72, 0x78, 0x02, 0x74, 0x78, 0x03, 0x72, 0x65, 0x71, 0x02, 0x67, 0x6f, 0x03, 0x61, 0x63, 0x6b,
];

const MARKS: &[u8; 57] = b"0 0 x0\n0 1 x0\n0 2 x0\n1 0 x0\n1 0 t0\n1 1 x0\n1 1 t0\n7 of 13\n";

#[test]
fn marks_are_listed(rt: HostRuntime) {
    let sheet = [0x01, 0x10, 0, 0, 0, 0, 0, 0, 0x01, 0x61];
    let mut output = [7; 8];
    assert_eq!(rt; funavolem_marks(rt.alloc(), &sheet, &mut output[..6]), 7);
    assert_eq!(rt; output, [7; 8]);
    assert_eq!(rt; funavolem_marks(rt.alloc(), &sheet, &mut output), 7);
    assert_eq!(rt; output, *b"0 of 0\n\x07");
}

#[test]
fn the_marks_of_the_worked_example_are_listed(rt: HostRuntime) {
    let mut output = [0; 57];
    assert_eq!(rt; funavolem_marks(rt.alloc(), &EXAMPLE, &mut output), 57);
    assert_eq!(rt; output, *MARKS);
}

#[test]
fn a_refusal_has_a_line(rt: HostRuntime) {
    let mut output = [7; 19];
    assert_eq!(rt; funavolem_marks(rt.alloc(), &[], &mut output[..17]), 18);
    assert_eq!(rt; output, [7; 19]);
    assert_eq!(rt; funavolem_marks(rt.alloc(), &[], &mut output), 18);
    assert_eq!(rt; output, *b"refused 1 sheet 0\n\x07");
}
