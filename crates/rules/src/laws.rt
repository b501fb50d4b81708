//! What holds of the rules themselves.
ghost use Rattle.rules.specs.Worked.{Worked};

/// The worked example: its least marks, its closed table, an open run, and the closed run that matches it; and what sums and
/// timers do at their ends: 32767 + 1 is -32768, and a timer set to -4 is at on(0).
pub fn example_is_worked()
    ensures { Worked }
{}
