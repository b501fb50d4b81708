//! The records of a sheet, each read field by field up to its first fault.
ghost use Rattle.std.specs.Prelude.{◌≡◌, ◌+◌, ◌*◌, ◌<◌, ◌≤◌, length, take, IfOk, IfSome};
ghost use Rattle.table.specs.Lists.{meant};
ghost use Rattle.reading.specs.Formats.{Format, got, many, signed};
ghost use Rattle.reading.specs.Layout.{head_format, header_format, signal_format, span_format, edge_format, term_format, timer_format, process_format};
ghost use Rattle.reading.specs.Opening.{process_bits};
ghost use Rattle.reading.specs.Readings.{Room, Reads, Moves};

use crate::fault::SheetFault;
use crate::reader::Reader;
use table::limits;
use table::record::{Class, Edge, Process, Signal, Span, Term, Timer};

pub const HEADER_BITS: usize = 44;

pub const SIGNAL_BITS: usize = 6;

pub const EDGE_BITS: usize = 60;

pub const TERM_BITS: usize = 20;

/// No sheet has more bytes: 8 processes of 8 variables and 8 timers, 64 signals, 2,048 edges, 4,096 terms, and 72 names of 15.
pub const LARGEST_SHEET: usize = 27_078;

/// The bit of a timer that is on.
const TIMER_ON: u16 = 1 << 15;

/// The counts of a sheet's header.
#[derive(Clone, Copy, Debug, PartialEq, Eq)]
pub struct Counts {
    pub processes: u8,
    pub signals: u8,
    pub edges: u16,
    pub terms: u16,
}

/// What a process's record begins with: the number of its last location, how many variables and timers it has, and where it starts.
#[derive(Clone, Copy)]
struct Head {
    last: u8,
    variables: u8,
    timers: u8,
    first: u8,
}

impl<'a> Reader<'a> {
    #[tactic(auto, unfolding(crate::specs::Formats::after, crate::specs::Layout::header_format))]
    pub fn header(&mut self) -> Result<Counts, SheetFault>
        requires { Room self.old 44 }
        ensures reads { Reads header_format.reads (λ c. c) self.old result self.new }
        ensures moves { Moves result self.old.place 44 self.new.place }
        ensures fits { IfOk result (λ c. (c.processes ≤ 8) × (c.signals ≤ 64) × (c.edges ≤ 2048) × (c.terms ≤ 4096)) }
    {
        self.within(8, 1, 1, SheetFault::Version(self.place))?;
        let processes = self.limited(4, 1, limits::PROCESSES as u16)? as u8;
        let signals = self.limited(7, 0, limits::SIGNALS as u16)? as u8;
        let edges = self.limited(12, 0, limits::EDGES as u16)?;
        let terms = self.limited(13, 0, limits::TERMS as u16)?;
        Ok(Counts {
            processes,
            signals,
            edges,
            terms,
        })
    }

    /// The signal of the next six bits, if they are there and nothing is wrong with them.
    fn whole_signal(&self, processes: u8) -> Option<Signal>
        requires { Room self.now 6 }
        ensures { IfSome result (λ s. (signal_format processes).reads self.now.bytes.now self.now.place ≡ got s (self.now.place + 6)) }
    {
        if !self.has(SIGNAL_BITS) {
            return None;
        }
        let word = self.peek(SIGNAL_BITS) as u8;
        let (class, destination) = (word / 8, word % 8);
        let most = if class <= Class::Inbound as u8 {
            processes.saturating_sub(1)
        } else {
            0
        };
        if class > Class::Absent as u8 || destination > most {
            return None;
        }
        Some(Signal { class, destination })
    }

    /// A signal of a sheet with so many processes.
    #[tactic(auto, unfolding(crate::specs::Formats::after, crate::specs::Layout::signal_format))]
    pub fn signal(&mut self, processes: u8) -> Result<Signal, SheetFault>
        requires { Room self.old 6 }
        ensures reads { Reads (signal_format processes).reads (λ s. s) self.old result self.new }
        ensures moves { Moves result self.old.place 6 self.new.place }
    {
        if let Some(signal) = self.whole_signal(processes) {
            self.place += SIGNAL_BITS;
            return Ok(signal);
        }
        let class = self.limited(3, 0, Class::Absent as u16)? as u8;
        let destination = if matches!(Class::from(class), Class::Internal | Class::Inbound) {
            self.limited(3, 0, u16::from(processes).saturating_sub(1))? as u8
        } else {
            self.zeros(3)? as u8
        };
        Ok(Signal { class, destination })
    }

    /// 16 bits, two's complement.
    #[tactic(auto, unfolding(crate::specs::Formats::after))]
    fn integer(&mut self) -> Result<i16, SheetFault>
        requires { Room self.old 16 }
        ensures reads { Reads signed.reads (λ z. z) self.old result self.new }
        ensures moves { Moves result self.old.place 16 self.new.place }
    {
        Ok(self.take(16)?.cast_signed())
    }

    #[tactic(auto, unfolding(crate::specs::Formats::after, crate::specs::Layout::term_format))]
    pub fn term(&mut self) -> Result<Term, SheetFault>
        requires { Room self.old 20 }
        ensures reads { Reads term_format.reads (λ t. t) self.old result self.new }
        ensures moves { Moves result self.old.place 20 self.new.place }
        ensures fits { IfOk result (λ t. t.operation ≤ 15) }
    {
        let operation = self.take(4)? as u8;
        let argument = self.integer()?;
        Ok(Term {
            operation,
            argument,
        })
    }

    #[tactic(auto, unfolding(crate::specs::Formats::after, crate::specs::Layout::span_format))]
    fn span(&mut self) -> Result<Span, SheetFault>
        requires { Room self.old 17 }
        ensures reads { Reads span_format.reads (λ s. s) self.old result self.new }
        ensures moves { Moves result self.old.place 17 self.new.place }
    {
        let start = self.take(12)?;
        let count = self.take(5)? as u8;
        Ok(Span { start, count })
    }

    #[tactic(auto, unfolding(crate::specs::Formats::after, crate::specs::Layout::edge_format))]
    pub fn edge(&mut self) -> Result<Edge, SheetFault>
        requires { Room self.old 60 }
        ensures reads { Reads edge_format.reads (λ e. e) self.old result self.new }
        ensures moves { Moves result self.old.place 60 self.new.place }
    {
        let process = self.take(3)? as u8;
        let from = self.take(4)? as u8;
        let to = self.take(4)? as u8;
        let kind = self.take(3)? as u8;
        let first = self.take(6)? as u8;
        let second = self.take(4)? as u8;
        let mode = self.take(2)? as u8;
        let guard = self.span()?;
        let value = self.span()?;
        Ok(Edge {
            process,
            from,
            to,
            kind,
            first,
            second,
            mode,
            guard,
            value,
        })
    }

    /// The timer of the next 16 bits, if they are there and nothing is wrong with them.
    fn whole_timer(&self) -> Option<Timer>
        requires { Room self.now 16 }
        ensures { IfSome result (λ t. timer_format.reads self.now.bytes.now self.now.place ≡ got t (self.now.place + 16)) }
    {
        if !self.has(16) {
            return None;
        }
        let word = self.peek(16);
        if word == 0 {
            return Some(Timer::Off);
        }
        if word < TIMER_ON {
            return None;
        }
        Some(Timer::On(word - TIMER_ON))
    }

    #[tactic(auto, unfolding(crate::specs::Formats::after, crate::specs::Layout::timer_format))]
    fn timer(&mut self) -> Result<Timer, SheetFault>
        requires { Room self.old 16 }
        ensures reads { Reads timer_format.reads (λ t. t) self.old result self.new }
        ensures moves { Moves result self.old.place 16 self.new.place }
    {
        if let Some(timer) = self.whole_timer() {
            self.place += 16;
            return Ok(timer);
        }
        if self.take(1)? == 0 {
            self.zeros(15)?;
            Ok(Timer::Off)
        } else {
            Ok(Timer::On(self.take(15)?))
        }
    }

    /// The first of the places, 16 bits each.
    fn read_first<T: Copy, F: Fn(&mut Reader<'a>) -> Result<T, SheetFault>>(
        &mut self,
        count: u8,
        places: &mut [T],
        read: F,
    ) -> Result<(), SheetFault>
        requires count { count ≤ length places.old }
        requires room { Room self.old (16 * count) }
        requires callable { (s : _) → Room s.now 16 → F.pre read s }
        requires sixteen { (s r t : _) → F.post read s r t → Moves r s.now.place 16 t.now.place }
        ensures reads { (f : Format T) → ((s r t : _) → F.post read s r t → Reads f.reads (λ x. x) s.now r t.now) → Reads (many count f).reads (λ _. take count places.new) self.old result self.new }
        ensures moves { Moves result self.old.place (16 * count) self.new.place }
    {
        for place in places[..usize::from(count)].iter_mut() {
            *place = read(self)?;
        }
        Ok(())
    }

    /// The head of the next 16 bits, if they are there and nothing is wrong with it.
    fn whole_head(&self) -> Option<Head>
        requires { Room self.now 16 }
        ensures reads { IfSome result (λ h. head_format.reads self.now.bytes.now self.now.place ≡ got h (self.now.place + 16)) }
        ensures fits { IfSome result (λ h. (h.last ≤ 15) × (h.variables ≤ 8) × (h.timers ≤ 8)) }
    {
        if !self.has(16) {
            return None;
        }
        let word = self.peek(16);
        let head = Head {
            last: (word / 4096) as u8,
            variables: (word / 256 % 16) as u8,
            timers: (word / 16 % 16) as u8,
            first: (word % 16) as u8,
        };
        if head.variables > limits::VARIABLES || head.timers > limits::TIMERS {
            return None;
        }
        if head.first > head.last {
            return None;
        }
        Some(head)
    }

    #[tactic(auto, unfolding(crate::specs::Formats::after, crate::specs::Layout::head_format))]
    fn head(&mut self) -> Result<Head, SheetFault>
        requires { Room self.old 16 }
        ensures reads { Reads head_format.reads (λ h. h) self.old result self.new }
        ensures fits { IfOk result (λ h. (h.last ≤ 15) × (h.variables ≤ 8) × (h.timers ≤ 8)) }
        ensures moves { Moves result self.old.place 16 self.new.place }
    {
        if let Some(head) = self.whole_head() {
            self.place += 16;
            return Ok(head);
        }
        let last = self.take(4)?;
        let variables = self.limited(4, 0, limits::VARIABLES as u16)? as u8;
        let timers = self.limited(4, 0, limits::TIMERS as u16)? as u8;
        let first = self.limited(4, 0, last)? as u8;
        Ok(Head {
            last: last as u8,
            variables,
            timers,
            first,
        })
    }

    pub fn process(&mut self) -> Result<Process, SheetFault>
        requires { Room self.old 272 }
        ensures reads { Reads process_format.reads meant self.old result self.new }
        ensures size { IfOk result (λ p. self.new.place ≡ self.old.place + process_bits (meant p)) }
        ensures bound { self.new.place ≤ self.old.place + 272 }
    {
        let head = self.head()?;
        let mut values = [0; 8];
        self.read_first(head.variables, &mut values, Reader::integer)?;
        let mut settings = [Timer::Off; 8];
        self.read_first(head.timers, &mut settings, Reader::timer)?;
        Ok(Process {
            locations: head.last + 1,
            first: head.first,
            variables: head.variables,
            timers: head.timers,
            values,
            settings,
        })
    }
}
