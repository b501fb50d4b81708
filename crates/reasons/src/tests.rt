//! The sentences of damaged worked examples, and of refusals by themselves.
use crate::sentence::Sentence;
use refusal::fault::{Layer, Place, Refusal};
use std::test::Fail;

/// The worked example.
const EXAMPLE: [u8; 104] = [
    0x01, 0x20, 0x60, 0x0e, 0, 0x52, 0x21, 0, 0, 0, 0, 0x70, 0, 0x01, 0x11, 0, 0, 0, 0, 0x02, 0x01,
    0x40, 0, 0x80, 0, 0, 0, 0, 0, 0, 0x91, 0x04, 0, 0, 0, 0, 0x04, 0x10, 0x30, 0, 0, 0, 0, 0x08,
    0x40, 0x05, 0, 0, 0, 0, 0, 0, 0x80, 0x80, 0x40, 0, 0, 0, 0, 0x08, 0x83, 0, 0x10, 0x02, 0x18, 0,
    0x04, 0x88, 0x10, 0x82, 0, 0, 0, 0, 0x44, 0, 0, 0x40, 0, 0x40, 0, 0, 0x40, 0, 0x14, 0, 0, 0x02,
    0x72, 0x78, 0x02, 0x74, 0x78, 0x03, 0x72, 0x65, 0x71, 0x02, 0x67, 0x6f, 0x03, 0x61, 0x63, 0x6b,
];

const fn at(number: u8, layer: Layer, place: usize) -> Refusal {
    Refusal {
        number,
        layer,
        place: Place::At(place),
        sheet: None,
    }
}

fn text_of_damaged(
    rt: &HostRuntime,
    byte: usize,
    content: u8,
    refusal: Refusal,
) -> Result<String, Fail> {
    let mut sheet = EXAMPLE;
    if let Some(place) = sheet.get_mut(byte) {
        *place = content;
    }
    Ok(format!(in rt.alloc(); "{}", Sentence::of_sheet(refusal, &sheet))?)
}

#[test]
fn damaged_sheets(rt: HostRuntime) -> Result<(), Fail> {
    let cases: [(usize, u8, u8, usize, &str); 11] = [
        (
            0,
            0x02,
            2,
            0,
            "bit 0, version: version 2, where only 1 is known",
        ),
        (
            1,
            0x90,
            3,
            8,
            "bit 8, process count: 9 processes, where 1 to 8 can be",
        ),
        (
            7,
            0x30,
            3,
            56,
            "bit 56, first location of process 0: location 3, where 0 to 2 can be",
        ),
        (
            19,
            0x08,
            3,
            156,
            "bit 156, class of signal 0: class 4, where 0 to 3 can be",
        ),
        (
            20,
            0x81,
            3,
            159,
            "bit 159, destination of signal 0: process 2, where 0 to 1 can be",
        ),
        (
            13,
            0x11,
            4,
            93,
            "bit 93, timer t0 of process 0: number 1, where a timer that is off has 0",
        ),
        (
            21,
            0x44,
            4,
            171,
            "bit 171, destination of signal 2: process 1, where a signal that is outbound has 0",
        ),
        (
            86,
            0x01,
            4,
            694,
            "bit 694, fill: 1, where 0 has to fill the byte",
        ),
        (
            87,
            0x00,
            6,
            696,
            "bit 696, name of process 0: a length of 0, where 1 to 15 can be",
        ),
        (
            88,
            0x20,
            6,
            704,
            "bit 704, name of process 0: character 32, where 33 to 126 can be",
        ),
        (
            97,
            0x10,
            6,
            776,
            "bit 776, name of signal 1: a length of 16, where 1 to 15 can be",
        ),
    ];
    for (byte, content, number, bit, text) in cases {
        let told = text_of_damaged(&rt, byte, content, at(number, Layer::Sheet, bit))?;
        assert_eq!(rt; told.as_str(), text);
    }
    Ok(())
}

fn edge_at(number: u8, edge: usize, bit: usize) -> Refusal {
    Refusal {
        sheet: Some(bit),
        ..at(number, Layer::Edge, edge)
    }
}

#[test]
fn damaged_edges(rt: HostRuntime) -> Result<(), Fail> {
    let cases: [(usize, u8, u8, usize, usize, &str); 13] = [
        (
            46,
            0x04,
            7,
            3,
            354,
            "edge 3, rx 0 to 0, timeout: rx has no timer t1",
        ),
        (
            44,
            0x78,
            7,
            3,
            354,
            "edge 3, process 7, 0 to 0, timeout: there is no process 7",
        ),
        (
            45,
            0x1d,
            7,
            3,
            354,
            "edge 3, rx 0 to 3, timeout: rx has no location 3",
        ),
        (
            24,
            0x80,
            8,
            0,
            174,
            "edge 0, rx 0 to 1, input: ack is outbound, which no input takes",
        ),
        (
            24,
            0x40,
            8,
            0,
            174,
            "edge 0, rx 0 to 1, input: go goes to tx, not rx",
        ),
        (
            43,
            0x28,
            9,
            2,
            294,
            "edge 2, rx 2 to 0, set: its value reaches beyond the 5 terms",
        ),
        (
            64,
            0x10,
            9,
            5,
            474,
            "edge 5, tx 1 to 0, set: its guard leaves 2 values, where 1 has to be left",
        ),
        (
            64,
            0x88,
            9,
            5,
            474,
            "edge 5, tx 1 to 0, set: its guard has 17 terms, where 16 is the most",
        ),
        (
            84,
            0x24,
            9,
            5,
            474,
            "edge 5, tx 1 to 0, set: term 4, in its guard, has the unknown operation 9",
        ),
        (
            84,
            0x54,
            9,
            5,
            474,
            "edge 5, tx 1 to 0, set: term 3, in its guard, reads x1, and tx has no variable x1",
        ),
        (
            79,
            0x5c,
            9,
            5,
            474,
            "edge 5, tx 1 to 0, set: term 2, in its guard, lacks an operand",
        ),
        (
            85,
            0x01,
            9,
            5,
            474,
            "edge 5, tx 1 to 0, set: term 4, in its guard, uses no argument, and 64 is there",
        ),
        (
            47,
            0x10,
            10,
            3,
            354,
            "edge 3, rx 0 to 0, timeout: a timeout has no guard, and its mode is 1",
        ),
    ];
    for (byte, content, number, edge, bit, text) in cases {
        let told = text_of_damaged(&rt, byte, content, edge_at(number, edge, bit))?;
        assert_eq!(rt; told.as_str(), text);
    }
    Ok(())
}

#[test]
fn sheets_of_another_length(rt: HostRuntime) -> Result<(), Fail> {
    let mut long = [0; 105];
    long[..104].copy_from_slice(&EXAMPLE);
    let cases: [(&[u8], u8, usize, &str); 5] = [
        (
            &[],
            1,
            0,
            "bit 0, version: the sheet ends before this field does",
        ),
        (
            &[0x01, 0x20],
            1,
            12,
            "bit 12, signal count: the sheet ends before this field does",
        ),
        (
            &EXAMPLE[..46],
            1,
            368,
            "bit 368, first field of edge 3: the sheet ends before this field does",
        ),
        (
            &EXAMPLE[..103],
            1,
            824,
            "bit 824, name of signal 2: the sheet ends before this field does",
        ),
        (
            &long,
            5,
            832,
            "bit 832, behind the last name: the sheet should end here, at byte 104",
        ),
    ];
    for (sheet, number, bit, text) in cases {
        let told = format!(in rt.alloc();
            "{}",
            Sentence::of_sheet(at(number, Layer::Sheet, bit), sheet)
        )?;
        assert_eq!(rt; told.as_str(), text);
    }
    Ok(())
}

fn at_location(number: u8, process: usize, location: usize) -> Refusal {
    Refusal {
        number,
        layer: Layer::Table,
        place: Place::Pair(process, location),
        sheet: None,
    }
}

#[test]
fn locations(rt: HostRuntime) -> Result<(), Fail> {
    let mixed = text_of_damaged(&rt, 67, 0x80, at_location(11, 1, 0))?;
    assert_eq!(rt;
        mixed.as_str(),
        "tx, location 0: edge 6, which acts, and edge 4, which waits, leave it"
    );
    let mut sheet = EXAMPLE;
    sheet[69] = 0x81;
    sheet[71] = 0x21;
    sheet[72] = 0x80;
    let stuck = format!(in rt.alloc(); "{}", Sentence::of_sheet(at_location(12, 1, 1), &sheet))?;
    assert_eq!(rt;
        stuck.as_str(),
        "tx, location 1: acting, and none of its edges is unguarded or else"
    );
    Ok(())
}

#[test]
fn refusals_alone(rt: HostRuntime) -> Result<(), Fail> {
    let cases: [(Refusal, &str); 9] = [
        (
            at(3, Layer::Table, 2),
            "number 2: a list that is too long, or a process or signal with a number that cannot be",
        ),
        (
            at(7, Layer::Edge, 4),
            "edge 4: a process, location, variable, timer or signal that it names is not there",
        ),
        (
            at_location(11, 1, 0),
            "process 1, location 0: both acting and waiting edges leave it",
        ),
        (
            at(13, Layer::Test, 1),
            "process 1: has 8 timers already and would need a chaos timer more",
        ),
        (
            at(14, Layer::Test, 2049),
            "closed table: 2049 edges, where 2048 is the most",
        ),
        (
            at(15, Layer::Book, 64),
            "item 64: no room, since the list is at its limit or its memory ends",
        ),
        (
            at(21, Layer::State, 1),
            "process 1: its queue holds 16 messages already",
        ),
        (
            at(22, Layer::Output, 104),
            "output: too short for the sheet, which takes 104 bytes",
        ),
        (
            at(40, Layer::State, 5),
            "place 5: refusal 40 of layer state is not known",
        ),
    ];
    for (refusal, text) in cases {
        let told = format!(in rt.alloc(); "{}", Sentence::of(refusal))?;
        assert_eq!(rt; told.as_str(), text);
    }
    Ok(())
}

/// What the sheet does not show is told by numbers.
#[test]
fn refusals_of_another_sheet(rt: HostRuntime) -> Result<(), Fail> {
    let cases: [(Refusal, &str); 5] = [
        (
            at(3, Layer::Sheet, 8),
            "bit 8: beyond its limit, or the number of a location or process that is not there",
        ),
        (
            edge_at(8, 3, 354),
            "edge 3: its signal has the wrong class or destination",
        ),
        (
            at_location(12, 1, 1),
            "process 1, location 1: acting, and none of its edges is unguarded or else",
        ),
        (
            at(13, Layer::Test, 1),
            "process 1: has 8 timers already and would need a chaos timer more",
        ),
        (
            at(21, Layer::State, 1),
            "tx: its queue holds 16 messages already",
        ),
    ];
    for (refusal, text) in cases {
        let told = format!(in rt.alloc(); "{}", Sentence::of_sheet(refusal, &EXAMPLE))?;
        assert_eq!(rt; told.as_str(), text);
    }
    Ok(())
}
