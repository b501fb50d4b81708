//! The state of a running table.
ghost use Rattle.std.specs.Prelude.{◌≡◌, ◌≤◌, true, length};
ghost use Rattle.ring.specs.Queue.{fits};

use ring::Ring;
use table::record::Timer;

/// A process as it runs. Its queue has its sixteen places in the queue memory.
#[derive(Clone, Copy)]
pub(crate) struct Local {
    pub(crate) location: u8,
    pub(crate) variables: [i16; 8],
    pub(crate) timers: [Timer; 8],
    pub(crate) queue: Ring,
    ghost variable_places: { length variables ≡ 8 },
    ghost timer_places: { length timers ≡ 8 },
    ghost queue_places: { fits queue 16 ≡ true },
}

/// The first of the places are the processes of a table that was started; what stands in those behind them means nothing.
#[derive(Clone, Copy)]
pub struct State {
    pub(crate) count: usize,
    pub(crate) processes: [Local; 8],
    ghost few: { count ≤ 8 },
    ghost places: { length processes ≡ 8 },
}
