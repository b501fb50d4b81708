//! Marking an instance, which then waits, and taking the next one out.
ghost use Rattle.std.specs.Prelude.{◌≡◌, ℕ, true, false, [], ◌∷◌, drop, MatchOption};
ghost use Rattle.marking.specs.Instances.{has, holds, given};
ghost use Rattle.marking.specs.Searching.{Grew, Marked, state};
ghost use Rattle.marking.specs.declared.instance.Instance.{Instance};
ghost use Rattle.table.specs.Lists.{Lists};

use crate::instance::Instance;
use crate::search::{INSTANCES, SITES, Search};
use marks::marks::bit;
use ring::Ring;
use table::limits;

impl Search {
    /// Nothing marked.
    pub fn new() -> Self
        ensures none { (i : Instance) → has result.words i ≡ false }
        ensures deaf { (s : ℕ) → given result.signals s ≡ false }
        ensures still { (state result).queue ≡ [] }
    {
        Search {
            words: [0; SITES],
            signals: [false; limits::SIGNALS],
            waiting: Ring::new(),
            places: [Instance::NONE; INSTANCES],
        }
    }

    /// Marks the instance, which then waits, unless it was marked before.
    pub fn mark(&mut self, instance: Instance)
        ensures same { self.new.signals ≡ self.old.signals }
        ensures marked { Marked (state self.new) instance }
        ensures grew { (T : Lists) → Grew T (λ N. holds N instance ≡ true) (state self.old) (state self.new) }
    {
        let site = usize::from(instance.site);
        let index = usize::from(instance.index);
        if site < SITES && index < 16 && !bit(self.words[site], index) {
            self.words[site] |= 1 << index;
            let _ = self.waiting.append(&mut self.places, instance);
        }
    }

    /// The instance that has waited longest.
    pub fn next(&mut self) -> Option<Instance>
        ensures words { self.new.words ≡ self.old.words }
        ensures signals { self.new.signals ≡ self.old.signals }
        ensures queue { (state self.new).queue ≡ drop 1 (state self.old).queue }
        ensures cases { MatchOption result ((state self.old).queue ≡ []) (λ i. (state self.old).queue ≡ i ∷ (state self.new).queue) }
    {
        self.waiting.remove(&mut self.places)
    }
}
