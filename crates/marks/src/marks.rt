//! Marks: one word of 16 bits for each location, variable n its bit n and timer n its bit 8 + n.
ghost use Rattle.std.specs.Prelude.{◌≡◌, ◌<◌, ◌≤◌, Some};
ghost use Rattle.marks.specs.Words.{bit, first_bit, is_marked, letter, word_at, marking, total};

use std::fmt;
use table::site::Site;

const INDICES: usize = 8;

/// The two sorts of instances.
#[derive(Clone, Copy, Debug, PartialEq, Eq)]
pub enum Sort {
    Variable,
    Timer,
}

impl Sort {
    /// The bit of the first instance of the sort.
    fn first_bit(self) -> usize
        ensures value { result ≡ first_bit self }
        ensures bound { result ≤ 8 }
    {
        match self {
            Sort::Variable => 0,
            Sort::Timer => INDICES,
        }
    }
}

impl fmt::Display for Sort {
    ghost output = { λ s. Some (letter s) };

    fn fmt<W: fmt::Write>(&self, f: &mut fmt::Formatter<W>) -> fmt::Result {
        let letter = match self {
            Sort::Variable => "x",
            Sort::Timer => "t",
        };
        write!(f, "{letter}")
    }
}

/// The word of location l of process p stands at 16 * p + l.
#[derive(Clone, Copy)]
pub struct Marks {
    words: [u16; 128],
}

impl Marks {
    pub fn of(words: [u16; 128]) -> Self
        ensures value { result.words ≡ words }
    {
        Marks { words }
    }

    pub fn word(&self, site: Site) -> u16
        ensures value { result ≡ word_at self.now.words site.process site.location }
    {
        site.pick(&self.words, 0)
    }

    /// Whether the instance of the sort with that index is marked.
    pub fn has(&self, sort: Sort, site: Site, index: usize) -> bool
        ensures value { result ≡ is_marked sort (marking self.now) site.process site.location index }
    {
        index < INDICES && bit(self.word(site), sort.first_bit() + index)
    }

    /// How many are marked.
    pub fn total(&self) -> u32
        ensures value { result ≡ total (marking self.now) }
    {
        let mut total = 0;
        for word in &self.words {
            total += word.count_ones();
        }
        total
    }
}

#[tactic(auto, using(crate::proofs::Bitwise::bit_test))]
pub fn bit(word: u16, number: usize) -> bool
    requires { number < 16 }
    ensures value { result ≡ bit word number }
{
    (word >> number) & 1 == 1
}
