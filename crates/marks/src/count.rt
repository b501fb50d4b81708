//! How many instances a table has: each variable and each timer of a process, once for each of its locations.
ghost use Rattle.std.specs.Prelude.{◌≡◌, ◌≤◌, take, sum_by};
ghost use Rattle.marks.specs.Instances.{of_process};
ghost use Rattle.table.specs.Lists.{meant};

use table::limits;
use table::questions::{Table, process_or_blank};
use table::record::Process;

/// Of the eight processes that a table may have.
pub fn instances<T: Table>(table: &T) -> usize
    ensures value { result ≡ sum_by of_process (take 8 (T.lists table.now).processes) }
{
    let mut total = 0;
    for p in 0..limits::PROCESSES {
        total += of_process(&process_or_blank(table, p));
    }
    total
}

fn of_process(process: &Process) -> usize
    ensures value { result ≡ of_process (meant process.now) }
    ensures bound { result ≤ 130050 }
{
    usize::from(process.locations) * (usize::from(process.variables) + usize::from(process.timers))
}
