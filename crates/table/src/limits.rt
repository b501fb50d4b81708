//! How large a table may be.

pub const PROCESSES: usize = 8;

pub const SIGNALS: usize = 64;

pub const EDGES: usize = 2048;

pub const TERMS: usize = 4096;

/// Of one process.
pub const LOCATIONS: u8 = 16;

pub const VARIABLES: u8 = 8;

pub const TIMERS: u8 = 8;

/// The longest time a timer may be set to at first.
pub const TIME: u16 = 32767;

/// Terms of one expression.
pub const EXPRESSION: u8 = 16;

/// The highest number a timer may be rearmed to.
pub const REARM: u8 = 15;

/// The second field of an input that drops its value.
pub const DROPPED: u8 = 15;
