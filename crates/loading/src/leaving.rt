//! Tables that tell more of themselves than the eight questions ask, so that running them is quick.
ghost use Rattle.std.specs.Prelude.{◌≡◌, ◌≤◌};
ghost use Rattle.loading.specs.Following.{next_at};
ghost use Rattle.refusal.specs.Refusals.{outcome, table_refusal};
ghost use Rattle.table.specs.Examination.{limits_refused};

use crate::loaded::Loaded;
use refusal::fault::TableFault;
use table::questions::Table;
use table::site::Site;

/// A table that knows whether it is within its limits, and where the edges of a location stand.
pub trait Leaving: Table {
    /// Whether the table is within its limits.
    fn check_limits(&self) -> Result<(), TableFault>
        ensures { outcome table_refusal result ≡ limits_refused (Self.lists self.now) };

    /// Where to look on from k for an edge that leaves the location: k, or beyond it, where no edge in between does.
    fn next_leaving(&self, site: Site, k: usize) -> usize
        ensures above { k ≤ result }
        ensures before { result ≤ next_at (Self.lists self.now).edges site.process site.location k };
}

impl Leaving for Loaded {
    fn check_limits(&self) -> Result<(), TableFault> {
        Ok(())
    }

    fn next_leaving(&self, site: Site, k: usize) -> usize {
        if k == 0 {
            return self.index.first_leaving(site);
        }
        match self.edge(k - 1) {
            Some(edge) if edge.start() == site => self.index.next_leaving(k - 1),
            _ => k,
        }
    }
}
