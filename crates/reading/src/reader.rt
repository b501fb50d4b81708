//! Reading fields from bytes, most significant bit first.
ghost use Rattle.std.specs.Prelude.{◌≡◌, ℕ, ◌+◌, ◌*◌, ◌/◌, ◌^◌, ◌<◌, ◌≤◌, length, IfOk, IfSome, nat_le, slice_index};
ghost use Rattle.refusal.specs.declared.fault.Place.{Place};
ghost use Rattle.reading.specs.Formats.{number, field, plain, taken};
ghost use Rattle.reading.specs.Faults.{sheet_refusal};
ghost use Rattle.reading.specs.Readings.{Room, Reads, Moves, window};

use crate::fault::SheetFault;

/// Bytes, and the bit that is read next.
#[derive(Drop)]
pub struct Reader<'a> {
    pub bytes: &'a [u8],
    pub place: usize,
}

impl<'a> Reader<'a> {
    pub fn at(bytes: &'a [u8], place: usize) -> Reader<'a>
        ensures bytes { result.bytes.now ≡ bytes.now }
        ensures place { result.place ≡ place }
    {
        Reader { bytes, place }
    }

    /// Byte i, or 0 past the end.
    pub fn byte(&self, i: usize) -> u8
        ensures { result ≡ slice_index self.now.bytes.now i }
    {
        self.bytes.get(i).copied().unwrap_or(0)
    }

    /// The window by one load, if there is a fourth byte.
    fn loaded_window(&self) -> Option<u32>
        ensures value { IfSome result (λ w. w ≡ window self.now.bytes.now self.now.place) }
        ensures bytes { IfSome result (λ w. (k : ℕ) → k < 3 → slice_index self.now.bytes.now (self.now.place / 8 + k) < 256) }
    {
        let i = self.place / 8;
        let &[a, b, c, d] = self.bytes.get(i..i + 4)?.first_chunk::<4>()?;
        Some(u32::from_be_bytes([a, b, c, d]) >> 8)
    }

    /// Three bytes as a number, from that of the next bit on. They hold any 16 bits from there.
    pub fn window(&self) -> u32
        ensures value { result ≡ window self.now.bytes.now self.now.place }
        ensures bytes { (k : ℕ) → k < 3 → slice_index self.now.bytes.now (self.now.place / 8 + k) < 256 }
    {
        if let Some(window) = self.loaded_window() {
            return window;
        }
        let first = self.place / 8;
        u32::from_be_bytes([
            0,
            self.byte(first),
            self.byte(first + 1),
            self.byte(first + 2),
        ])
    }

    /// The next `width` bits as a number, those past the end as zeros.
    pub(crate) fn peek(&self, width: usize) -> u16
        requires { width ≤ 16 }
        ensures value { result ≡ number self.now.bytes.now self.now.place width }
        ensures bound { result < 2 ^ width }
    {
        let below = 24 - self.place % 8 - width;
        ((self.window() >> below) & ((1 << width) - 1)) as u16
    }

    /// Whether the bytes go on for `width` bits.
    pub(crate) fn has(&self, width: usize) -> bool
        requires { Room self.now width }
        ensures { result ≡ nat_le (self.now.place + width) (8 * length self.now.bytes.now) }
    {
        (self.place + width).div_ceil(8) <= self.bytes.len()
    }

    /// A field of `width` bits, at least `least` and at most `most`; another is refused with `fault`.
    #[tactic(auto, unfolding(crate::specs::Formats::taken))]
    pub fn within(
        &mut self,
        width: usize,
        least: u16,
        most: u16,
        fault: SheetFault,
    ) -> Result<u16, SheetFault>
        requires width { width ≤ 16 }
        requires room { Room self.old width }
        requires here { (sheet_refusal fault).place ≡ Place.At self.old.place }
        ensures reads { Reads (taken width least most (sheet_refusal fault)) (λ v. v) self.old result self.new }
        ensures fits { IfOk result (λ v. (v < 2 ^ width) × (least ≤ v) × (v ≤ most)) }
        ensures moves { Moves result self.old.place width self.new.place }
    {
        if !self.has(width) {
            return Err(SheetFault::Short(self.place));
        }
        let value = self.peek(width);
        if !(least..=most).contains(&value) {
            return Err(fault);
        }
        self.place += width;
        Ok(value)
    }

    /// A count or a number with a limit.
    pub fn limited(&mut self, width: usize, least: u16, most: u16) -> Result<u16, SheetFault>
        requires width { width ≤ 16 }
        requires room { Room self.old width }
        ensures reads { Reads (field width least most 3).reads (λ v. v) self.old result self.new }
        ensures fits { IfOk result (λ v. (v < 2 ^ width) × (least ≤ v) × (v ≤ most)) }
        ensures moves { Moves result self.old.place width self.new.place }
    {
        self.within(width, least, most, SheetFault::Limit(self.place))
    }

    /// Bits that are not used.
    pub fn zeros(&mut self, width: usize) -> Result<u16, SheetFault>
        requires width { width ≤ 16 }
        requires room { Room self.old width }
        ensures reads { Reads (field width 0 0 4).reads (λ v. v) self.old result self.new }
        ensures fits { IfOk result (λ v. v ≤ 0) }
        ensures moves { Moves result self.old.place width self.new.place }
    {
        self.within(width, 0, 0, SheetFault::NotZero(self.place))
    }

    /// A field of `width` bits with any content.
    pub fn take(&mut self, width: usize) -> Result<u16, SheetFault>
        requires width { width ≤ 16 }
        requires room { Room self.old width }
        ensures reads { Reads (plain width).reads (λ v. v) self.old result self.new }
        ensures fits { IfOk result (λ v. v < 2 ^ width) }
        ensures moves { Moves result self.old.place width self.new.place }
    {
        self.within(width, 0, u16::MAX, SheetFault::Short(self.place))
    }
}
