//! Questions about the edges that leave a location, each answered by going from one of them to the next.
ghost use Rattle.std.specs.Prelude.{◌≡◌, ◌==◌, ◌&&◌, Bool};
ghost use Rattle.std.specs.Fn.{FnReturnsAt};
ghost use Rattle.table.specs.Examination.{some};
ghost use Rattle.table.specs.declared.record.Edge.{Edge};

use loading::leaving::Leaving;
use table::record::Edge;
use table::site::Site;

fn leaves(edge: &Edge, site: Site) -> bool
    ensures { result ≡ (edge.now.process == site.process && edge.now.from == site.location) }
{
    edge.start() == site
}

/// Whether some edge that leaves the location passes the test.
pub(crate) fn any_leaving<T: Leaving, F: Fn(&Edge) -> bool>(table: &T, site: Site, test: F) -> bool
    requires { F.IsAlwaysCallable test }
    ensures { (f : Edge → Bool) → ((e : Edge) (b : Bool) → FnReturnsAt F.Fn test e b → b ≡ f e) → result ≡ some (T.lists table.now) f site.process site.location }
{
    let count = table.edge_count();
    let mut k = table.next_leaving(site, 0);
    while k < count {
        if let Some(edge) = table.edge(k)
            && leaves(&edge, site)
            && test(&edge)
        {
            return true;
        }
        k = table.next_leaving(site, k + 1);
    }
    false
}
