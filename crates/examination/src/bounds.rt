//! The limits of a table: of its lists, processes and signals.
ghost use Rattle.std.specs.Prelude.{◌≡◌, length};
ghost use Rattle.std.specs.List.{slice_get};
ghost use Rattle.table.specs.Examination.{answer_at, limited, bad_process, bad_signal, lists_refused, processes_refused, signals_refused, limits_refused};
ghost use Rattle.refusal.specs.Refusals.{outcome, table_refusal};

use crate::first::first_fault;
use refusal::fault::TableFault;
use table::limits;
use table::questions::{Table, process_at};

fn check_lists<T: Table>(table: &T) -> Result<(), TableFault>
    ensures { outcome table_refusal result ≡ lists_refused (T.lists table.now) }
{
    if table.process_count() > limits::PROCESSES
        || table.signal_count() > limits::SIGNALS
        || table.edge_count() > limits::EDGES
        || table.term_count() > limits::TERMS
    {
        return Err(TableFault::Limit(0));
    }
    Ok(())
}

fn check_process<T: Table>(table: &T, p: usize) -> Result<(), TableFault>
    ensures { outcome table_refusal result ≡ answer_at (limited bad_process) p (slice_get (T.lists table.now).processes p) }
{
    if process_at(table, p).is_some_and(|process| process.is_bad()) {
        return Err(TableFault::Limit(p));
    }
    Ok(())
}

fn check_processes<T: Table>(table: &T) -> Result<(), TableFault>
    ensures { outcome table_refusal result ≡ processes_refused (T.lists table.now) }
{
    first_fault(table.process_count(), |p| check_process(table, p))
}

fn check_signal<T: Table>(table: &T, s: usize) -> Result<(), TableFault>
    ensures { outcome table_refusal result ≡ answer_at (limited (bad_signal (length (T.lists table.now).processes))) s (slice_get (T.lists table.now).signals s) }
{
    let processes = table.process_count();
    if table
        .signal(s)
        .is_some_and(|signal| signal.is_bad(processes))
    {
        return Err(TableFault::Limit(s));
    }
    Ok(())
}

fn check_signals<T: Table>(table: &T) -> Result<(), TableFault>
    ensures { outcome table_refusal result ≡ signals_refused (T.lists table.now) }
{
    first_fault(table.signal_count(), |s| check_signal(table, s))
}

/// Whether every list, process and signal is within its limits.
#[tactic(auto, unfolding(table::specs::Examination::limits_refused))]
pub fn check_limits<T: Table>(table: &T) -> Result<(), TableFault>
    ensures { outcome table_refusal result ≡ limits_refused (T.lists table.now) }
{
    check_lists(table)?;
    check_processes(table)?;
    check_signals(table)
}
