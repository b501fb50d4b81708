//! The parts of a sheet: rows of records, the fill and the end.
ghost use Rattle.std.specs.Prelude.{◌≡◌, ℕ, ◌+◌, ◌-◌, ◌*◌, ◌/◌, ◌%◌, ◌^◌, ◌<◌, ◌≤◌, length, take, drop, IfOk, OnOk, map, slice_index};
ghost use Rattle.reading.specs.Formats.{Format, field, many, filled, ended};
ghost use Rattle.reading.specs.Layout.{process_format, signal_format, edge_format, term_format, name_format};
ghost use Rattle.reading.specs.Opening.{processes_bits, placed};
ghost use Rattle.reading.specs.Readings.{Room, Reads, Moves, Steps, Walks};
ghost use Rattle.reading.specs.Rows.{processes_at, signals_from, edges_from, terms_from, text_at, texts_at, named_at, next_name};

use crate::fault::SheetFault;
use crate::reader::Reader;
use crate::records::{EDGE_BITS, TERM_BITS};
use table::limits;

const LONGEST_NAME: u8 = 15;

impl<'a> Reader<'a> {
    /// So many processes. The bits at which they begin go into the first places.
    pub fn processes(
        &mut self,
        count: u8,
        places: &mut [u32; limits::PROCESSES],
    ) -> Result<(), SheetFault>
        requires count { count ≤ 8 }
        requires place { self.old.place + 272 * count < 2 ^ 32 }
        ensures reads { Reads (many count process_format).reads (λ _. processes_at self.old.bytes.now (take count places.new)) self.old result self.new }
        ensures size { OnOk result (self.new.place ≡ self.old.place + processes_bits (processes_at self.old.bytes.now (take count places.new))) }
        ensures bound { self.new.place ≤ self.old.place + 272 * count }
    {
        for place in places[..usize::from(count)].iter_mut() {
            *place = self.place as u32;
            self.process()?;
        }
        Ok(())
    }

    /// So many signals of a sheet with so many processes.
    pub fn signals(&mut self, count: u8, processes: u8) -> Result<(), SheetFault>
        requires { Room self.old (64 * count) }
        ensures reads { Reads (many count (signal_format processes)).reads (λ _. signals_from self.old.bytes.now self.old.place processes count) self.old result self.new }
        ensures moves { Moves result self.old.place (6 * count) self.new.place }
    {
        self.row(usize::from(count), |reader| reader.signal(processes))
    }

    /// So many records, of at most 64 bits each, one behind the other.
    fn row<T: Drop, F: Fn(&mut Reader<'a>) -> Result<T, SheetFault>>(
        &mut self,
        count: usize,
        read: F,
    ) -> Result<(), SheetFault>
        requires room { Room self.old (64 * count) }
        requires callable { (s : _) → Room s.now 64 → F.pre read s }
        requires narrow { (s r t : _) → F.post read s r t → t.now.place ≤ s.now.place + 64 }
        ensures { (f : Format T) (d : T) (w : ℕ) → ((s r t : _) → F.post read s r t → Steps f w s.now r t.now) → Walks f d w count self.old result self.new }
    {
        for _ in 0..count {
            read(self)?;
        }
        Ok(())
    }

    /// An edge is made of any 60 bits; what is wrong with it is found out later. So one by one they are read only where some are missing.
    pub fn edges(&mut self, count: u16) -> Result<(), SheetFault>
        requires { Room self.old (64 * count) }
        ensures reads { Reads (many count edge_format).reads (λ _. edges_from self.old.bytes.now self.old.place count) self.old result self.new }
        ensures moves { Moves result self.old.place (60 * count) self.new.place }
    {
        let count = usize::from(count);
        if self.has(EDGE_BITS * count) {
            self.place += EDGE_BITS * count;
            return Ok(());
        }
        self.row(count, Reader::edge)
    }

    /// A term is made of any 20 bits, as an edge is of any 60.
    pub fn terms(&mut self, count: u16) -> Result<(), SheetFault>
        requires { Room self.old (64 * count) }
        ensures reads { Reads (many count term_format).reads (λ _. terms_from self.old.bytes.now self.old.place count) self.old result self.new }
        ensures moves { Moves result self.old.place (20 * count) self.new.place }
    {
        let count = usize::from(count);
        if self.has(TERM_BITS * count) {
            self.place += TERM_BITS * count;
            return Ok(());
        }
        self.row(count, Reader::term)
    }

    /// Zero bits up to the next whole byte.
    pub fn fill(&mut self) -> Result<u16, SheetFault>
        requires { Room self.old 7 }
        ensures reads { Reads filled.reads (λ v. v) self.old result self.new }
        ensures moves { Moves result self.old.place ((8 - self.old.place % 8) % 8) self.new.place }
    {
        self.zeros((8 - self.place % 8) % 8)
    }

    /// A whole byte of a name.
    #[tactic(auto, using(crate::proofs::Numbers::number_aligned), unfolding(crate::specs::Formats::taken))]
    fn name_byte(&mut self, least: u8, most: u8) -> Result<u8, SheetFault>
        requires whole_byte { self.old.place % 8 ≡ 0 }
        requires room { Room self.old 8 }
        ensures reads { Reads (field 8 least most 6).reads (λ v. v) self.old result self.new }
        ensures moves { Moves result self.old.place 8 self.new.place }
        ensures byte { IfOk result (λ v. (v ≡ slice_index self.old.bytes.now (self.old.place / 8)) × (self.old.place / 8 < length self.old.bytes.now) × (v ≤ most)) }
    {
        if !self.has(8) {
            return Err(SheetFault::Short(self.place));
        }
        let byte = self.byte(self.place / 8);
        if !(least..=most).contains(&byte) {
            return Err(SheetFault::Name(self.place));
        }
        self.place += 8;
        Ok(byte)
    }

    /// So many characters.
    fn characters(&mut self, count: u8) -> Result<(), SheetFault>
        requires whole_byte { self.old.place % 8 ≡ 0 }
        requires room { Room self.old (8 * count) }
        ensures reads { Reads (many count (field 8 33 126 6)).reads (λ _. take count (drop (self.old.place / 8) self.old.bytes.now)) self.old result self.new }
        ensures moves { Moves result self.old.place (8 * count) self.new.place }
        ensures whole { OnOk result (length (take count (drop (self.old.place / 8) self.old.bytes.now)) ≡ count) }
    {
        for _ in 0..usize::from(count) {
            self.name_byte(b'!', b'~')?;
        }
        Ok(())
    }

    #[tactic(auto, unfolding(crate::specs::Formats::after, crate::specs::Layout::name_format))]
    pub fn name(&mut self) -> Result<(), SheetFault>
        requires whole_byte { self.old.place % 8 ≡ 0 }
        requires room { Room self.old 128 }
        ensures reads { Reads name_format.reads (λ _. text_at self.old.bytes.now (self.old.place / 8)) self.old result self.new }
        ensures size { OnOk result (self.new.place ≡ 8 * next_name self.old.bytes.now (self.old.place / 8)) }
        ensures bound { self.new.place ≤ self.old.place + 128 }
        ensures whole { OnOk result (length (text_at self.old.bytes.now (self.old.place / 8)) ≡ slice_index self.old.bytes.now (self.old.place / 8)) }
    {
        let length = self.name_byte(1, LONGEST_NAME)?;
        self.characters(length)
    }

    pub fn names(&mut self, count: usize) -> Result<(), SheetFault>
        requires whole_byte { self.old.place % 8 ≡ 0 }
        requires room { Room self.old (128 * count) }
        ensures reads { Reads (many count name_format).reads (λ _. texts_at self.old.bytes.now (self.old.place / 8) count) self.old result self.new }
        ensures places { OnOk result (placed (self.old.place / 8) (texts_at self.old.bytes.now (self.old.place / 8) count) ≡ named_at self.old.bytes.now (self.old.place / 8) count) }
    {
        for _ in 0..count {
            self.name()?;
        }
        Ok(())
    }

    /// The end of the bytes.
    pub fn end(&mut self) -> Result<(), SheetFault>
        ensures reads { Reads ended.reads (λ _. 0) self.old result self.new }
    {
        if self.place / 8 < self.bytes.len() {
            return Err(SheetFault::Surplus(self.place));
        }
        Ok(())
    }
}
