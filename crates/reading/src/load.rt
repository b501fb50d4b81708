//! What lies at a bit: a record read where it is, an edge's 60 bits and a term's 20 at once.
ghost use Rattle.std.specs.Prelude.{◌≡◌, ◌+◌, ◌-◌, ◌*◌, ◌/◌, ◌%◌, ◌^◌, ◌<◌, ◌≤◌, length, IfSome};
ghost use Rattle.reading.specs.Formats.{number};
ghost use Rattle.reading.specs.Layout.{process_format, signal_format, edge_format, term_format};
ghost use Rattle.reading.specs.Readings.{Room, read_at};
ghost use Rattle.reading.specs.Rows.{no_edge, no_term};
ghost use Rattle.table.specs.Edges.{absent, blank};
ghost use Rattle.table.specs.Lists.{meant};

use crate::reader::Reader;
use table::record::{Edge, Process, Signal, Span, Term};

/// The field of `width` bits at bit `at` of an edge's 60.
fn part(word: u64, at: u32, width: u32) -> u16
    requires inside { at + width ≤ 60 }
    requires width { width ≤ 16 }
    ensures value { result ≡ word / 2 ^ (60 - at - width) % 2 ^ width }
    ensures bound { result < 2 ^ width }
{
    ((word >> (60 - at - width)) & ((1 << width) - 1)) as u16
}

impl<'a> Reader<'a> {
    /// The next 60 bits, if the nine bytes are there in which they lie.
    fn word(&self) -> Option<u64>
        ensures value { IfSome result (λ w. w ≡ number self.now.bytes.now self.now.place 60) }
        ensures room { IfSome result (λ w. self.now.place + 60 ≤ 8 * length self.now.bytes.now) }
    {
        let i = self.place / 8;
        let &[a, b, c, d, e, f, g, h, last] = self.bytes.get(i..i + 9)?.first_chunk::<9>()?;
        let high = u64::from_be_bytes([a, b, c, d, e, f, g, h]);
        let window = u128::from(high) * 256 + u128::from(last);
        Some(((window >> (12 - self.place % 8)) & ((1 << 60) - 1)) as u64)
    }

    /// The next 20 bits, if the four bytes are there in which they lie.
    fn short_word(&self) -> Option<u32>
        ensures value { IfSome result (λ w. w ≡ number self.now.bytes.now self.now.place 20) }
        ensures room { IfSome result (λ w. self.now.place + 20 ≤ 8 * length self.now.bytes.now) }
        ensures bound { IfSome result (λ w. w < 1048576) }
    {
        let i = self.place / 8;
        let &[a, b, c, d] = self.bytes.get(i..i + 4)?.first_chunk::<4>()?;
        let window = u32::from_be_bytes([a, b, c, d]);
        Some((window >> (12 - self.place % 8)) & ((1 << 20) - 1))
    }

    /// The process that lies here, or a blank one where none can be read.
    pub fn process_here(&self) -> Process
        requires { Room self.now 272 }
        ensures { meant result ≡ read_at process_format blank self.now.bytes.now self.now.place }
    {
        Reader::at(self.bytes, self.place)
            .process()
            .unwrap_or(Process::BLANK)
    }

    /// The signal that lies here, in a sheet of so many processes, or an absent one where none can be read.
    pub fn signal_here(&self, processes: u8) -> Signal
        requires { Room self.now 6 }
        ensures { result ≡ read_at (signal_format processes) absent self.now.bytes.now self.now.place }
    {
        Reader::at(self.bytes, self.place)
            .signal(processes)
            .unwrap_or(Signal::ABSENT)
    }

    /// The term that lies here, or a term of zeros where the bytes end too soon.
    pub fn term_here(&self) -> Term
        requires { Room self.now 20 }
        ensures value { result ≡ read_at term_format no_term self.now.bytes.now self.now.place }
        ensures bound { result.operation ≤ 15 }
    {
        let Some(word) = self.short_word() else {
            return Reader::at(self.bytes, self.place)
                .term()
                .unwrap_or_default();
        };
        Term {
            operation: (word >> 16) as u8,
            argument: ((word & 0xffff) as u16).cast_signed(),
        }
    }

    /// The edge that lies here, or an edge of zeros where the bytes end too soon.
    pub fn edge_here(&self) -> Edge
        requires { Room self.now 60 }
        ensures { result ≡ read_at edge_format no_edge self.now.bytes.now self.now.place }
    {
        let Some(word) = self.word() else {
            return Reader::at(self.bytes, self.place)
                .edge()
                .unwrap_or_default();
        };
        Edge {
            process: part(word, 0, 3) as u8,
            from: part(word, 3, 4) as u8,
            to: part(word, 7, 4) as u8,
            kind: part(word, 11, 3) as u8,
            first: part(word, 14, 6) as u8,
            second: part(word, 20, 4) as u8,
            mode: part(word, 24, 2) as u8,
            guard: Span {
                start: part(word, 26, 12),
                count: part(word, 38, 5) as u8,
            },
            value: Span {
                start: part(word, 43, 12),
                count: part(word, 55, 5) as u8,
            },
        }
    }
}
