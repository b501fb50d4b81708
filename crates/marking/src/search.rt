//! What the search for the least marks holds.
ghost use Rattle.std.specs.Prelude.{◌≡◌, ◌+◌, ◌≤◌, true, length};
ghost use Rattle.ring.specs.Queue.{fits};
ghost use Rattle.marking.specs.Instances.{unset};

use crate::instance::Instance;
use ring::Ring;
use table::limits;

/// So many locations have a word of marks.
pub const SITES: usize = 128;

/// So many instances there can be.
pub const INSTANCES: usize = 2048;

/// The marked instances, a bit each; the signals that bring marked values; and the queue of the instances that wait to be
/// followed. An instance waits once, when it is marked, so there is room for it.
#[derive(Drop)]
pub struct Search {
    pub words: [u16; SITES],
    pub signals: [bool; limits::SIGNALS],
    pub waiting: Ring,
    pub places: [Instance; INSTANCES],
    ghost locations: { length words ≡ 128 },
    ghost known: { length signals ≡ 64 },
    ghost whole: { length places ≡ 2048 },
    ghost fit: { fits waiting 2048 ≡ true },
    ghost room: { unset 2048 words + waiting.len ≤ 2048 },
}
