//! Writing fields to bytes, most significant bit first.
ghost use Rattle.std.specs.Prelude.{◌≡◌, ℕ, ◌+◌, ◌*◌, ◌/◌, ◌%◌, ◌^◌, ◌<◌, ◌≤◌, List, [], ◌∷◌, slice_set};
ghost use Rattle.reading.specs.Formats.{Field, bits};
ghost use Rattle.writing.specs.Writes.{Writes, patched, fields_below};

use reading::reader::Reader;

/// The bit that is written next. The bytes are lent to each call; what would lie behind their end is not written.
#[derive(Clone, Copy, Debug, PartialEq, Eq)]
pub struct Writer {
    pub place: usize,
}

/// Byte i becomes `byte`, if there is such a one.
#[tactic(auto, using(std::proofs::lemmas::List::set_past))]
fn store(bytes: &mut [u8], i: usize, byte: u8)
    ensures { bytes.new ≡ slice_set bytes.old i byte }
{
    if i < bytes.len() {
        bytes[i] = byte;
    }
}

/// The 24 bits of `window` with `value` in the `width` bits that `below` more follow.
fn patch(window: u32, below: usize, width: usize, value: u16) -> u32
    requires window { window < 2 ^ 24 }
    requires width { below + width ≤ 24 }
    requires narrow { value < 2 ^ width }
    ensures value { result ≡ patched window below width value }
    ensures bound { result < 2 ^ 24 }
{
    let above = window >> (below + width) << (below + width);
    above + (u32::from(value) << below) + window % (1 << below)
}

impl Writer {
    /// A field of `width` bits that writes `value`. Three bytes hold it; their other bits stay.
    pub fn put(&mut self, bytes: &mut [u8], width: usize, value: u16)
        requires width { width ≤ 16 }
        requires narrow { value < 2 ^ width }
        requires room { self.old.place + width < 2 ^ 64 }
        ensures place { self.new.place ≡ self.old.place + width }
        ensures writes { Writes (bits width value ∷ []) self.old.place self.new.place bytes.old bytes.new }
    {
        let first = self.place / 8;
        let below = 24 - self.place % 8 - width;
        let window = Reader::at(bytes, self.place).window();
        let [_, a, b, c] = patch(window, below, width, value).to_be_bytes();
        store(bytes, first, a);
        store(bytes, first + 1, b);
        store(bytes, first + 2, c);
        self.place += width;
    }

    /// What `write` writes of what `read` gives at the numbers below `count`, one behind the other.
    pub(crate) fn row<R, G: Fn(usize) -> R, F: Fn(&mut Writer, &mut [u8], R)>(
        &mut self,
        bytes: &mut [u8],
        count: usize,
        read: G,
        write: F,
    )
        requires readable { (k : ℕ) → k < count → G.pre read k }
        requires writable { (k : ℕ) (r : R) (s x : _) → k < count → G.post read k r → s.now.place ≤ self.old.place + 272 * count → F.pre write s x r }
        requires narrow { (r : R) (s x t y : _) → F.post write s x r tt t y → t.now.place ≤ s.now.place + 272 }
        ensures bound { (w : ℕ) → ((r : R) (s x t y : _) → F.post write s x r tt t y → t.now.place ≤ s.now.place + w) → self.new.place ≤ self.old.place + w * count }
        ensures calls { (k : ℕ) → k < count → (r : R) × (s x t y : _) × G.post read k r × F.post write s x r tt t y }
        ensures writes { (fs : ℕ → List Field)
            → ((k : ℕ) (r : R) (s x t y : _) → k < count → G.post read k r → F.post write s x r tt t y → Writes (fs k) s.now.place t.now.place x.now y.now)
            → Writes (fields_below fs count) self.old.place self.new.place bytes.old bytes.new }
    {
        for k in 0..count {
            write(self, bytes, read(k));
        }
    }
}
