//! The locations of a table: which edges leave them, and the two tests of a location.
ghost use Rattle.std.specs.Prelude.{◌≡◌, ℕ, Bool, None};
ghost use Rattle.std.specs.List.{slice_get};
ghost use Rattle.std.specs.Option.{option_map};
ghost use Rattle.examination.specs.Locations.{Raised, pair, raised};
ghost use Rattle.table.specs.Examination.{acts, waits, frees, answer_at, location_in, first_location, limits_refused, locations_refused};
ghost use Rattle.table.specs.declared.site.Site.{Site};
ghost use Rattle.refusal.specs.Refusals.{outcome, table_refusal};

use crate::flags::Locations;
use refusal::fault::TableFault;
use table::questions::{Table, process_at};
use table::record::Edge;
use table::site::Site;

/// The locations that some edge leaves: one that acts, one that waits, one that is free.
#[derive(Drop)]
struct Ways {
    acting: Locations,
    waiting: Locations,
    free: Locations,
}

impl Ways {
    /// Those of all edges of the table.
    fn of<T: Table>(table: &T) -> Self
        ensures acting { Raised result.acting.flags acts (T.lists table.now).edges }
        ensures waiting { Raised result.waiting.flags waits (T.lists table.now).edges }
        ensures free { Raised result.free.flags frees (T.lists table.now).edges }
    {
        let mut found = Ways {
            acting: Locations::none(),
            waiting: Locations::none(),
            free: Locations::none(),
        };
        for k in 0..table.edge_count() {
            if let Some(edge) = table.edge(k) {
                found.note(&edge);
            }
        }
        found
    }

    fn note(&mut self, edge: &Edge)
        ensures acting { self.new.acting.flags ≡ raised acts edge.now self.old.acting.flags }
        ensures waiting { self.new.waiting.flags ≡ raised waits edge.now self.old.waiting.flags }
        ensures free { self.new.free.flags ≡ raised frees edge.now self.old.free.flags }
    {
        let site = edge.start();
        if edge.acts() {
            self.acting.note(site);
        } else {
            self.waiting.note(site);
        }
        if edge.is_free() {
            self.free.note(site);
        }
    }
}

/// The first location of process p that passes the test.
fn find_of<T: Table, H: Fn(Site) -> bool>(table: &T, p: usize, test: &H) -> Option<Site>
    requires { H.IsAlwaysCallable test.now }
    ensures { (h : ℕ → ℕ → Bool) → ((s : Site) (b : Bool) → H.post test.now s b → b ≡ h s.process s.location) → option_map pair result ≡ answer_at (location_in h) p (slice_get (T.lists table.now).processes p) }
{
    let process = process_at(table, p)?;
    (0..usize::from(process.locations))
        .map(|location| Site {
            process: p,
            location,
        })
        .find(|site| test(*site))
}

/// The first location, process by process, that passes the test.
fn find_location<T: Table, H: Fn(Site) -> bool>(table: &T, test: H) -> Option<Site>
    requires { H.IsAlwaysCallable test }
    ensures { (h : ℕ → ℕ → Bool) → ((s : Site) (b : Bool) → H.post test s b → b ≡ h s.process s.location) → option_map pair result ≡ first_location h (T.lists table.now).processes }
{
    (0..table.process_count()).find_map(|p| find_of(table, p, &test))
}

pub fn check_locations<T: Table>(table: &T) -> Result<(), TableFault>
    requires { limits_refused (T.lists table.now) ≡ None }
    ensures { outcome table_refusal result ≡ locations_refused (T.lists table.now) }
{
    let found = Ways::of(table);
    let mixed = find_location(table, |site| {
        found.acting.has(site) && found.waiting.has(site)
    });
    if let Some(Site { process, location }) = mixed {
        return Err(TableFault::Mixed { process, location });
    }
    let stuck = find_location(table, |site| {
        found.acting.has(site) && !found.free.has(site)
    });
    if let Some(Site { process, location }) = stuck {
        return Err(TableFault::Stuck { process, location });
    }
    Ok(())
}
