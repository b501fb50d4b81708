//! Lists the marks of many small sheets, good and damaged, and of the largest, and says what closing does to two of them and to the
//! largest that closes; what it writes is compared with what is expected. Of piles of closing layers it says how much they ask. It
//! shows the sentence of each refusal, and what comes of the words that programs are given.
//! A line of the file `cases.txt` is a name, a colon, and the bytes of a sheet in hexadecimal.
#![tactic(auto)]

mod piles;
mod uses;
mod watched;

use listing::list;
use piles::tell_piles;
use reasons::sentence::Sentence;
use refusal::failure::Failure;
use refusal::fault::{Layer, Place, Refusal};
use sealing::seal::seal;
use sheet::opening::open_sheet;
use shell::words::take_none;
use std::alloc::{AllocError, Global};
use std::process::ExitCode;
use std::{env, fs};
use uses::show_uses;

const NAME: &str = "cases";

const ABOUT: &str =
    "Lists, closes and explains many sheets, and uses the programs as people do, to be compared";

fn digit(b: u8) -> Option<u8> {
    match b {
        b'0'..=b'9' => Some(b - b'0'),
        b'A'..=b'F' => Some(b - b'A' + 10),
        _ => None,
    }
}

/// The bytes that pairs of hexadecimal digits stand for; anything else is passed over.
fn bytes_of(heap: Global, text: &str) -> Result<Vec<u8>, AllocError> {
    let mut bytes = Vec::new(heap);
    let mut high = None;
    for b in text.bytes() {
        match (high, digit(b)) {
            (None, low) => high = low,
            (Some(h), Some(low)) => {
                bytes.push((h << 4) | low)?;
                high = None;
            }
            (Some(_), None) => high = None,
        }
    }
    Ok(bytes)
}

/// The refusal of the sheet in these bytes, and the sentence that explains it.
fn tell_refusal(rt: &HostRuntime, refusal: Refusal, sheet: &[u8]) -> anyhow::Result<()> {
    println!(rt; "{refusal}")?;
    let sentence = Sentence::of_sheet(refusal, sheet);
    println!(rt; "    {sentence}")?;
    Ok(())
}

/// The last line of the sheet's listing, after its name; or why there is none.
fn tell(rt: &HostRuntime, name: &str, sheet: &[u8]) -> anyhow::Result<()> {
    print!(rt; "{name}: ")?;
    match list(rt.alloc(), sheet) {
        Ok(text) => println!(rt; "{}", text.as_str().lines().last().unwrap_or(""))?,
        Err(Failure::Refused(refusal)) => tell_refusal(rt, refusal, sheet)?,
        Err(Failure::OutOfMemory) => return Err(AllocError.into()),
    }
    Ok(())
}

/// What closing the sheet did, or why it cannot be closed.
fn tell_closed(rt: &HostRuntime, sheet: &[u8]) -> anyhow::Result<()> {
    match seal(rt.alloc(), sheet) {
        Ok(sealed) => rt.print(sealed.summary.as_str())?,
        Err(Failure::Refused(refusal)) => tell_refusal(rt, refusal, sheet)?,
        Err(Failure::OutOfMemory) => return Err(AllocError.into()),
    }
    Ok(())
}

/// What the questions to closing layers on the sheet ask it.
fn tell_piled(rt: &HostRuntime, sheet: &[u8]) -> anyhow::Result<()> {
    match open_sheet(sheet) {
        Ok(table) => tell_piles(rt, &table),
        Err(fault) => tell_refusal(rt, Refusal::from(fault), sheet),
    }
}

/// The sentence of each refusal that none of the sheets here meets.
fn tell_without_sheets(rt: &HostRuntime) -> anyhow::Result<()> {
    let refusals: [(u8, Layer, usize); 12] = [
        (3, Layer::Table, 1),
        (9, Layer::Book, 5),
        (14, Layer::Test, 2049),
        (15, Layer::Book, 8),
        (16, Layer::Book, 7),
        (17, Layer::Book, 0),
        (18, Layer::State, 0),
        (18, Layer::State, 1),
        (19, Layer::State, 7),
        (20, Layer::State, 1),
        (21, Layer::State, 1),
        (22, Layer::Output, 104),
    ];
    for (number, layer, place) in refusals {
        let refusal = Refusal {
            number,
            layer,
            place: Place::At(place),
            sheet: None,
        };
        println!(rt; "{refusal}")?;
        println!(rt; "    {}", Sentence::of(refusal))?;
    }
    Ok(())
}

fn run(rt: &HostRuntime) -> anyhow::Result<()> {
    let text = fs::read_to_string(rt, "cases.txt")?;
    for line in text.as_str().lines() {
        if let Some((name, digits)) = line.split_once(':') {
            let sheet = bytes_of(rt.alloc(), digits)?;
            tell(rt, name, &sheet)?;
        }
    }
    let largest = fs::read(rt, "largest.sheet")?;
    tell(rt, "the largest sheet", &largest)?;
    let gate = fs::read(rt, "gate.sheet")?;
    tell_closed(rt, &gate)?;
    tell_closed(rt, &largest)?;
    tell_piled(rt, &gate)?;
    let closing = fs::read(rt, "closing.sheet")?;
    tell_closed(rt, &closing)?;
    tell_without_sheets(rt)?;
    show_uses(rt, &gate, &largest)
}

fn main(rt: HostRuntime) -> anyhow::Result<ExitCode> {
    let words: Vec<String> = env::args(&rt)?.collect(rt.alloc())?;
    if let Some(status) = take_none(&rt, rt.alloc(), NAME, ABOUT, words.as_slice())? {
        return Ok(ExitCode::from(status));
    }
    run(&rt)?;
    Ok(ExitCode::SUCCESS)
}
