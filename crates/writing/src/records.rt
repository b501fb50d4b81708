//! The records of a sheet, each written field by field.
ghost use Rattle.std.specs.Prelude.{◌≡◌, ℕ, ◌+◌, ◌*◌, ◌^◌, ◌<◌, ◌≤◌, false, FitsSigned};
ghost use Rattle.std.specs.Int.{w16};
ghost use Rattle.reading.specs.Formats.{signed};
ghost use Rattle.reading.specs.Layout.{header_format, signal_format, span_format, edge_format, term_format, timer_format, process_format};
ghost use Rattle.reading.specs.Spelling.{FitsProcess, FitsTerm};
ghost use Rattle.table.specs.Examination.{bad_process};
ghost use Rattle.table.specs.Lists.{meant};
ghost use Rattle.writing.specs.Writes.{AreNarrow, Writes};

use crate::writer::Writer;
use reading::records::Counts;
use table::record::{Edge, Process, Signal, Span, Term, Timer};

impl Writer {
    #[tactic(auto, unfolding(reading::specs::Layout::header_format))]
    pub fn header(&mut self, bytes: &mut [u8], counts: Counts)
        requires room { self.old.place + 44 < 2 ^ 64 }
        requires narrow { AreNarrow (header_format.writes counts) }
        ensures place { self.new.place ≡ self.old.place + 44 }
        ensures writes { Writes (header_format.writes counts) self.old.place self.new.place bytes.old bytes.new }
    {
        self.put(bytes, 8, 1);
        self.put(bytes, 4, counts.processes as u16);
        self.put(bytes, 7, counts.signals as u16);
        self.put(bytes, 12, counts.edges);
        self.put(bytes, 13, counts.terms);
    }

    /// A signal, whatever the number of processes.
    pub fn signal(&mut self, bytes: &mut [u8], signal: Signal)
        requires room { self.old.place + 6 < 2 ^ 64 }
        requires class { signal.class < 8 }
        requires destination { signal.destination < 8 }
        ensures place { self.new.place ≡ self.old.place + 6 }
        ensures writes { (n : ℕ) → Writes ((signal_format n).writes signal) self.old.place self.new.place bytes.old bytes.new }
    {
        self.put(bytes, 3, signal.class as u16);
        self.put(bytes, 3, signal.destination as u16);
    }

    /// 16 bits, two's complement.
    fn integer(&mut self, bytes: &mut [u8], value: i16)
        requires room { self.old.place + 16 < 2 ^ 64 }
        ensures place { self.new.place ≡ self.old.place + 16 }
        ensures fits { FitsSigned w16 value }
        ensures writes { Writes (signed.writes value) self.old.place self.new.place bytes.old bytes.new }
    {
        self.put(bytes, 16, value.cast_unsigned());
    }

    #[tactic(auto, unfolding(reading::specs::Layout::term_format))]
    pub fn term(&mut self, bytes: &mut [u8], term: Term)
        requires room { self.old.place + 20 < 2 ^ 64 }
        requires narrow { term.operation ≤ 15 }
        ensures place { self.new.place ≡ self.old.place + 20 }
        ensures fits { FitsTerm term }
        ensures writes { Writes (term_format.writes term) self.old.place self.new.place bytes.old bytes.new }
    {
        self.put(bytes, 4, term.operation as u16);
        self.integer(bytes, term.argument);
    }

    #[tactic(auto, unfolding(reading::specs::Layout::span_format))]
    fn span(&mut self, bytes: &mut [u8], span: Span)
        requires room { self.old.place + 17 < 2 ^ 64 }
        requires narrow { AreNarrow (span_format.writes span) }
        ensures place { self.new.place ≡ self.old.place + 17 }
        ensures writes { Writes (span_format.writes span) self.old.place self.new.place bytes.old bytes.new }
    {
        self.put(bytes, 12, span.start);
        self.put(bytes, 5, span.count as u16);
    }

    #[tactic(auto, unfolding(reading::specs::Layout::edge_format, reading::specs::Layout::span_format))]
    pub fn edge(&mut self, bytes: &mut [u8], edge: Edge)
        requires room { self.old.place + 60 < 2 ^ 64 }
        requires narrow { AreNarrow (edge_format.writes edge) }
        ensures place { self.new.place ≡ self.old.place + 60 }
        ensures writes { Writes (edge_format.writes edge) self.old.place self.new.place bytes.old bytes.new }
    {
        self.put(bytes, 3, edge.process as u16);
        self.put(bytes, 4, edge.from as u16);
        self.put(bytes, 4, edge.to as u16);
        self.put(bytes, 3, edge.kind as u16);
        self.put(bytes, 6, edge.first as u16);
        self.put(bytes, 4, edge.second as u16);
        self.put(bytes, 2, edge.mode as u16);
        self.span(bytes, edge.guard);
        self.span(bytes, edge.value);
    }

    #[tactic(auto, unfolding(reading::specs::Layout::timer_format))]
    fn timer(&mut self, bytes: &mut [u8], timer: Timer)
        requires room { self.old.place + 16 < 2 ^ 64 }
        requires narrow { AreNarrow (timer_format.writes timer) }
        ensures place { self.new.place ≡ self.old.place + 16 }
        ensures writes { Writes (timer_format.writes timer) self.old.place self.new.place bytes.old bytes.new }
    {
        let (on, ticks) = match timer {
            Timer::Off => (0, 0),
            Timer::On(ticks) => (1, ticks),
        };
        self.put(bytes, 1, on);
        self.put(bytes, 15, ticks);
    }

    /// A process. Its values and timers beyond the counts are not written.
    pub fn process(&mut self, bytes: &mut [u8], process: Process)
        requires room { self.old.place + 4096 < 2 ^ 64 }
        requires good { bad_process (meant process) ≡ false }
        ensures bound { self.new.place ≤ self.old.place + 272 }
        ensures fits { FitsProcess (meant process) }
        ensures writes { Writes (process_format.writes (meant process)) self.old.place self.new.place bytes.old bytes.new }
    {
        self.put(bytes, 4, process.locations as u16 - 1);
        self.put(bytes, 4, process.variables as u16);
        self.put(bytes, 4, process.timers as u16);
        self.put(bytes, 4, process.first as u16);
        let variables = usize::from(process.variables);
        self.row(bytes, variables, |k| process.values[k], Writer::integer);
        let timers = usize::from(process.timers);
        self.row(bytes, timers, |k| process.settings[k], Writer::timer);
    }
}
