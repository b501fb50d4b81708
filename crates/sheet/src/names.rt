//! Names, answered as the very parts of the sheet that hold them.
ghost use Rattle.std.specs.Prelude.{◌≡◌, ◌+◌, ◌^◌, ◌<◌, ◌≤◌, take, drop};
ghost use Rattle.std.specs.List.{slice_get};
ghost use Rattle.reading.specs.Rows.{name_start, text_at};
ghost use Rattle.sheet.specs.Views.{bytes_of, names_of, opened_of, heard};

use crate::view::Sheet;
use reading::reader::Reader;

impl<'a> Sheet<'a> {
    /// The byte with the length of name k, counted over processes and then signals.
    fn name_start(&self, k: usize) -> usize
        requires { k ≤ 512 }
        ensures value { result ≡ name_start (bytes_of self.now) self.now.names_at k }
        ensures bound { result < 2 ^ 33 }
    {
        let reader = Reader::at(self.bytes, 0);
        let mut at = self.names_at as usize;
        for _ in 0..k {
            at += 1 + usize::from(reader.byte(at));
        }
        at
    }

    /// Name k. An opened sheet has all its bytes, so that nothing is cut off there.
    fn name(&self, k: usize) -> (usize, &'a [u8])
        requires { k ≤ 512 }
        ensures place { result.0 ≡ name_start (bytes_of self.now) self.now.names_at k + 1 }
        ensures text { result.1.now ≡ text_at (bytes_of self.now) (name_start (bytes_of self.now) self.now.names_at k) }
    {
        let bytes = self.bytes;
        let start = self.name_start(k);
        let length = usize::from(Reader::at(bytes, 0).byte(start));
        let from = (start + 1).min(bytes.len());
        let to = (start + 1 + length).min(bytes.len());
        (start + 1, &bytes[from..to])
    }

    /// Name k of the `count` names from number `first` on.
    fn name_among(&self, first: u8, count: u8, k: usize) -> Option<(usize, &'a [u8])>
        requires { first + count ≤ self.now.counts.processes + self.now.counts.signals }
        ensures { heard result ≡ slice_get (take count (drop first (names_of self.now))) k }
    {
        if k >= usize::from(count) {
            return None;
        }
        Some(self.name(usize::from(first) + k))
    }

    /// The name of process p with its place in the sheet.
    #[tactic(auto, unfolding(crate::specs::Views::opened_of))]
    pub fn process_name(&self, p: usize) -> Option<(usize, &'a [u8])>
        ensures { heard result ≡ slice_get (opened_of self.now).process_names p }
    {
        self.name_among(0, self.counts.processes, p)
    }

    /// The name of signal s with its place in the sheet.
    pub fn signal_name(&self, s: usize) -> Option<(usize, &'a [u8])>
        ensures { heard result ≡ slice_get (opened_of self.now).signal_names s }
    {
        self.name_among(self.counts.processes, self.counts.signals, s)
    }

    /// The part of the sheet behind the fill: for each process and then each signal a length byte and its characters.
    pub fn name_area(&self) -> &'a [u8]
        ensures { result.now ≡ drop self.now.names_at (bytes_of self.now) }
    {
        let bytes = self.bytes;
        let start = (self.names_at as usize).min(bytes.len());
        &bytes[start..]
    }
}
