//! The least marks of a table: which variables and timers can hold what came from outside, at which locations.
#![tactic(auto)]

ghost use Rattle.std.specs.Prelude.{◌≡◌, ◌<◌, ◌≤◌, IfOk, length};
ghost use Rattle.loading.specs.Indexing.{Indexes};
ghost use Rattle.table.specs.Examination.{examined};
ghost use Rattle.refusal.specs.Refusals.{outcome, table_refusal};
ghost use Rattle.marks.specs.Instances.{own};
ghost use Rattle.marks.specs.Rules.{Least, Within};
ghost use Rattle.marks.specs.Words.{marking};

use crate::flow::Flow;
use examination::bounds::check_limits;
use examination::examine;
use loading::index::Index;
use loading::kept::Kept;
use loading::load::load;
use marks::marks::Marks;
use refusal::fault::TableFault;
use table::limits;
use table::questions::Table;

pub mod example;
mod flow;
mod flows;
mod instance;
mod leads;
mod queue;
mod search;
mod solver;
mod word;

/// From so many edges on a copy of the table is worth making.
const FEW: usize = 64;

/// The least marks of a table, which is examined first.
pub fn mark<T: Table>(table: &T) -> Result<Marks, TableFault>
    ensures refused { outcome table_refusal result ≡ examined (T.lists table.now) }
    ensures least { IfOk result (λ m. Least (T.lists table.now) (marking m)) }
    ensures within { IfOk result (λ m. Within (marking m) (own (T.lists table.now))) }
{
    if table.edge_count() < FEW {
        mark_here(table)
    } else {
        mark_copy(table)
    }
}

/// Copies the table first. This stands apart so that marking a small table sets no memory aside for a copy.
#[inline(never)]
#[tactic(auto, unfolding(table::specs::Examination::examined))]
fn mark_copy<T: Table>(table: &T) -> Result<Marks, TableFault>
    ensures refused { outcome table_refusal result ≡ examined (T.lists table.now) }
    ensures least { IfOk result (λ m. Least (T.lists table.now) (marking m)) }
    ensures within { IfOk result (λ m. Within (marking m) (own (T.lists table.now))) }
{
    let loaded = load(table)?;
    mark_by(&loaded, loaded.index(), &mut [Flow::NONE; limits::EDGES])
}

/// Reads edges and terms where they are, each several times.
#[tactic(auto, unfolding(table::specs::Examination::examined))]
fn mark_here<T: Table>(table: &T) -> Result<Marks, TableFault>
    requires { length (T.lists table.now).edges < 64 }
    ensures refused { outcome table_refusal result ≡ examined (T.lists table.now) }
    ensures least { IfOk result (λ m. Least (T.lists table.now) (marking m)) }
    ensures within { IfOk result (λ m. Within (marking m) (own (T.lists table.now))) }
{
    check_limits(table)?;
    let table = Kept::of(table);
    mark_by(&table, &Index::of(&table), &mut [Flow::NONE; FEW])
}

/// The least marks by an index of the edges, over places for a flow of each edge. Where a table has more edges than it may have, nothing
/// is asked of the index or the places.
#[tactic(auto, using(crate::proofs::Flowing::few_edges))]
fn mark_by<T: Table>(table: &T, index: &Index, flows: &mut [Flow]) -> Result<Marks, TableFault>
    requires indexed { length (T.lists table.now).edges ≤ 2048 → Indexes index.now (T.lists table.now).edges }
    requires room { length (T.lists table.now).edges ≤ 2048 → length (T.lists table.now).edges ≤ length flows.old }
    ensures refused { outcome table_refusal result ≡ examined (T.lists table.now) }
    ensures least { IfOk result (λ m. Least (T.lists table.now) (marking m)) }
    ensures within { IfOk result (λ m. Within (marking m) (own (T.lists table.now))) }
{
    examine(table)?;
    Ok(solver::least(table, index, flows))
}
