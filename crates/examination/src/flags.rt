//! A yes or no for each location of a table.
ghost use Rattle.std.specs.Prelude.{◌≡◌, ℕ, false, length};
ghost use Rattle.examination.specs.Locations.{has_at, noted};

use table::site::Site;

/// A location has its flag at its index.
#[derive(Drop)]
pub struct Locations {
    flags: [bool; 128],
    ghost size: { length flags ≡ 128 },
}

impl Locations {
    pub fn none() -> Self
        ensures { (p l : ℕ) → has_at result.flags p l ≡ false }
    {
        Locations {
            flags: [false; 128],
        }
    }

    /// Whether the location has the flag; one that cannot be has none.
    #[tactic(auto, unfolding(crate::specs::Locations::has_at))]
    pub fn has(&self, site: Site) -> bool
        ensures { result ≡ has_at self.now.flags site.process site.location }
    {
        site.pick(&self.flags, false)
    }

    #[tactic(auto, unfolding(crate::specs::Locations::noted))]
    pub fn note(&mut self, site: Site)
        ensures { self.new.flags ≡ noted self.old.flags site.process site.location }
    {
        if let Some(i) = site.index() {
            self.flags[i] = true;
        }
    }
}
