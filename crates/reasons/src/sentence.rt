//! The sentence of a refusal.
use crate::bits::of_bits;
use crate::field::Owner;
use crate::finding::{find_flaw, find_leaving};
use crate::flaw::Flaw;
use crate::general::general;
use crate::reason::Reason;
use crate::spot::Spot;
use crate::wording::{FlawTold, Named};
use examination::examine;
use refusal::fault::{Layer, Place, Refusal};
use sheet::opening::open_bits;
use sheet::view::Sheet;
use std::fmt;
use table::limits;
use table::questions::{Table, process_or_blank, signal_or_absent};
use table::record::Edge;
use table::site::Site;

/// Where something is refused, and what is wrong, as `edge 3, rx 0 to 0, timeout: rx has no timer t1`.
#[derive(Clone, Copy)]
pub struct Sentence<'a> {
    pub(crate) spot: Spot<'a>,
    pub(crate) reason: Reason<'a>,
}

impl fmt::Display for Sentence<'_> {
    fn fmt<W: fmt::Write>(&self, f: &mut fmt::Formatter<W>) -> fmt::Result {
        let spot = &self.spot;
        let reason = &self.reason;
        write!(f, "{spot}: {reason}")
    }
}

impl<'a> Sentence<'a> {
    /// Of the sheet in these bytes, or of its table. What the bytes do not show is told as where there is no sheet.
    pub fn of_sheet(refusal: Refusal, bytes: &'a [u8]) -> Sentence<'a> {
        let shown = match open_bits(bytes) {
            Ok(sheet) => of_table(refusal, &sheet),
            Err(fault) => of_bits(refusal, fault, bytes),
        };
        shown.unwrap_or(Sentence::of(refusal))
    }

    /// Where there is no sheet: processes, signals and edges by their numbers.
    pub fn of(refusal: Refusal) -> Sentence<'static> {
        general(
            refusal,
            Named::Number(Owner::Process(place_process(refusal))),
        )
    }
}

/// Where all bits of the sheet are good.
fn of_table<'a>(refusal: Refusal, sheet: &Sheet<'a>) -> Option<Sentence<'a>> {
    match (refusal.layer, refusal.place) {
        (Layer::Edge, Place::At(k)) => of_edge(refusal.number, sheet, k),
        (Layer::Table, Place::Pair(process, location)) if refusal.number == 11 => {
            of_mixed(sheet, Site { process, location })
        }
        _ => is_likely(refusal, sheet).then_some(general(refusal, place_named(refusal, sheet))),
    }
}

/// Whether the table does not speak against the refusal.
fn is_likely(refusal: Refusal, sheet: &Sheet<'_>) -> bool {
    match (refusal.layer, refusal.place) {
        (Layer::Table, Place::Pair(..)) => match examine(sheet) {
            Ok(()) => false,
            Err(fault) => Refusal::from(fault) == refusal,
        },
        (Layer::Test, Place::At(p)) if refusal.number == 13 => {
            process_or_blank(sheet, p).timers == limits::TIMERS
        }
        _ => true,
    }
}

fn of_edge<'a>(number: u8, sheet: &Sheet<'a>, k: usize) -> Option<Sentence<'a>> {
    let edge = sheet.edge(k)?;
    let flaw = find_flaw(sheet, &edge)?;
    if flaw.number() != number {
        return None;
    }
    Some(Sentence {
        spot: Spot::Move {
            edge: k,
            process: process_named(sheet, edge.process.into()),
            from: edge.from,
            to: edge.to,
            kind: edge.does(),
        },
        reason: Reason::Flaw(told(sheet, &edge, flaw)),
    })
}

fn told<'a>(sheet: &Sheet<'a>, edge: &Edge, flaw: Flaw) -> FlawTold<'a> {
    let signal = signal_or_absent(sheet, edge.first.into());
    FlawTold {
        flaw,
        kind: edge.does(),
        process: process_named(sheet, edge.process.into()),
        signal: signal_named(sheet, edge.first.into()),
        class: signal.is(),
        destination: process_named(sheet, signal.destination.into()),
        terms: sheet.term_count(),
    }
}

fn of_mixed<'a>(sheet: &Sheet<'a>, site: Site) -> Option<Sentence<'a>> {
    let acting = find_leaving(sheet, site, true)?;
    let waiting = find_leaving(sheet, site, false)?;
    Some(Sentence {
        spot: Spot::Location(process_named(sheet, site.process), site.location),
        reason: Reason::Mixed { acting, waiting },
    })
}

/// The process whose number stands first in the place, if the place tells of one.
fn place_process(refusal: Refusal) -> usize {
    match refusal.place {
        Place::At(p) | Place::Pair(p, _) => p,
    }
}

fn place_named<'a>(refusal: Refusal, sheet: &Sheet<'a>) -> Named<'a> {
    process_named(sheet, place_process(refusal))
}

fn process_named<'a>(sheet: &Sheet<'a>, p: usize) -> Named<'a> {
    match sheet.process_name(p) {
        Some((_, name)) => Named::Name(name),
        None => Named::Number(Owner::Process(p)),
    }
}

fn signal_named<'a>(sheet: &Sheet<'a>, s: usize) -> Named<'a> {
    match sheet.signal_name(s) {
        Some((_, name)) => Named::Name(name),
        None => Named::Number(Owner::Signal(s)),
    }
}
