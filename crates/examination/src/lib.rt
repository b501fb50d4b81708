//! The examination of a table: its limits, its edges one by one, and its locations.
#![tactic(auto)]

ghost use Rattle.std.specs.Prelude.{◌≡◌};
ghost use Rattle.std.specs.List.{slice_get};
ghost use Rattle.std.specs.Option.{option_or};
ghost use Rattle.table.specs.Examination.{answer_at, edge_refused, edges_refused, examined, limits_refused};
ghost use Rattle.refusal.specs.Refusals.{outcome, table_refusal};

use crate::bounds::check_limits;
use crate::first::first_fault;
use crate::location::check_locations;
use refusal::fault::TableFault;
use table::questions::Table;

pub mod bounds;
pub mod edge;
pub mod first;
mod flags;
mod location;

/// Whether the table is good, and if not, what is wrong with it first.
#[tactic(auto, unfolding(table::specs::Examination::examined))]
pub fn examine<T: Table>(table: &T) -> Result<(), TableFault>
    ensures { outcome table_refusal result ≡ examined (T.lists table.now) }
{
    check_records(table)?;
    check_locations(table)
}

/// Whether every list, process, signal and edge is good by itself, and if not, what is wrong with them first.
pub fn check_records<T: Table>(table: &T) -> Result<(), TableFault>
    ensures { outcome table_refusal result ≡ option_or (limits_refused (T.lists table.now)) (edges_refused (T.lists table.now)) }
{
    check_limits(table)?;
    check_edges(table)
}

fn check_edge<T: Table>(table: &T, k: usize) -> Result<(), TableFault>
    ensures { outcome table_refusal result ≡ answer_at (edge_refused (T.lists table.now)) k (slice_get (T.lists table.now).edges k) }
{
    edge::check_at(table, k).map_err(TableFault::Edge)
}

fn check_edges<T: Table>(table: &T) -> Result<(), TableFault>
    ensures { outcome table_refusal result ≡ edges_refused (T.lists table.now) }
{
    first_fault(table.edge_count(), |k| check_edge(table, k))
}
