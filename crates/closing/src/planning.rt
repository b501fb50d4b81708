//! Making a plan for a table.
ghost use Rattle.std.specs.Prelude.{◌≡◌, ℕ, ◌<◌, slice_index};
ghost use Rattle.closing.specs.Plans.{Planned};
ghost use Rattle.marks.specs.Instances.{process_at};
ghost use Rattle.marks.specs.Words.{marking};

use crate::plan::Plan;
use loops::row::Loops;
use marks::marks::Marks;
use std::array;
use survey::edges::survey;
use table::questions::{Table, process_or_blank};

/// How many timers each of the first eight processes has.
fn timer_counts<T: Table>(table: &T) -> [u8; 8]
    ensures { (p : ℕ) → p < 8 → slice_index result p ≡ (process_at (T.lists table.now) p).timers }
{
    array::from_fn(|p| process_or_blank(table, p).timers)
}

impl Plan {
    /// The plan for closing the table by these marks.
    pub(crate) fn of<T: Table>(table: &T, marks: &Marks) -> Self
        ensures { Planned (T.lists table.now) (marking marks.now) result }
    {
        let survey = survey(table, marks);
        let loops = Loops::of(table, marks, &survey);
        Plan {
            marks: *marks,
            survey,
            timers: timer_counts(table),
            loops,
        }
    }
}
