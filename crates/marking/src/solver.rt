//! The search for the least marks: inputs of inbound signals first, then whatever a marked instance leads to.
ghost use Rattle.std.specs.Prelude.{◌≡◌, ◌≤◌, None, length};
ghost use Rattle.loading.specs.Indexing.{Indexes};
ghost use Rattle.marks.specs.Instances.{own};
ghost use Rattle.marks.specs.Rules.{Least, Within};
ghost use Rattle.marks.specs.Words.{marking};
ghost use Rattle.table.specs.Examination.{examined};

use crate::flow::Flow;
use crate::flows::{Flows, work_out};
use crate::search::Search;
use loading::index::{Index, Inputs};
use marks::marks::Marks;
use table::questions::Table;

/// The least marks of a table that passes its examination, by the index of its edges, over places for a flow of each edge.
pub fn least<T: Table>(table: &T, index: &Index, flows: &mut [Flow]) -> Marks
    requires room { length (T.lists table.now).edges ≤ length flows.old }
    requires good { examined (T.lists table.now) ≡ None }
    requires indexed { Indexes index.now (T.lists table.now).edges }
    ensures least { Least (T.lists table.now) (marking result) }
    ensures within { Within (marking result) (own (T.lists table.now)) }
{
    work_out(table, flows);
    let flows = Flows {
        flows,
        index,
        inputs: &Inputs::of(table),
    };
    let mut search = Search::new();
    flows.plant(table, &mut search);
    flows.settle(table, &mut search);
    Marks::of(search.words)
}
