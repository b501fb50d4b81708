//! Loading a table.
ghost use Rattle.std.specs.Prelude.{◌≡◌, None, IfOk};
ghost use Rattle.loading.specs.Indexing.{Indexes};
ghost use Rattle.loading.specs.Loading.{lists_of};
ghost use Rattle.refusal.specs.Refusals.{outcome, table_refusal};
ghost use Rattle.table.specs.Examination.{limits_refused};

use crate::copying::{edges, processes, signals, terms};
use crate::index::Index;
use crate::loaded::Loaded;
use examination::bounds::check_limits;
use refusal::fault::TableFault;
use table::questions::Table;

impl Loaded {
    /// A copy of a table that is within its limits. This stands apart so that whoever makes one sets its memory aside only here.
    #[inline(never)]
    pub fn of<T: Table>(table: &T) -> Loaded
        requires { limits_refused (T.lists table.now) ≡ None }
        ensures { lists_of result ≡ T.lists table.now }
    {
        Loaded {
            process_count: table.process_count(),
            signal_count: table.signal_count(),
            edge_count: table.edge_count(),
            term_count: table.term_count(),
            processes: processes(table),
            signals: signals(table),
            edges: edges(table),
            terms: terms(table),
            index: Index::of(table),
        }
    }

    /// The index of its edges by the location they leave.
    pub fn index(&self) -> &Index
        ensures { Indexes result.now (lists_of self.now).edges }
    {
        &self.index
    }
}

/// Copies the whole table into memory, where it is within its limits.
pub fn load<T: Table>(table: &T) -> Result<Loaded, TableFault>
    ensures refused { outcome table_refusal result ≡ limits_refused (T.lists table.now) }
    ensures lists { IfOk result (λ loaded. lists_of loaded ≡ T.lists table.now) }
{
    check_limits(table)?;
    Ok(Loaded::of(table))
}
