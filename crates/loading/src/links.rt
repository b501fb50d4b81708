//! Making an index of the edges of a table, and going from an edge to the next one of its location.
ghost use Rattle.std.specs.Prelude.{◌≡◌, ℕ, ◌+◌, ◌<◌, ◌≤◌, List, length, slice_index, Some};
ghost use Rattle.std.specs.List.{slice_get};
ghost use Rattle.table.specs.declared.record.Edge.{Edge};
ghost use Rattle.loading.specs.Indexing.{Indexes, headed, known, linked};

use crate::index::Index;
use table::limits;
use table::questions::Table;
use table::site::Site;

impl Index {
    /// No edge of the `count` edges leaves any location.
    fn none(count: usize) -> Index
        requires { count ≤ 2048 }
        ensures { (i : ℕ) → i < 128 → slice_index result.first i ≡ count }
    {
        Index {
            first: [count as u16; 128],
            next: [0; 2048],
        }
    }

    /// The index of a table's edges, where there are no more than a table may have. Of a larger table nothing is promised.
    pub fn of<T: Table>(table: &T) -> Index
        ensures { length (T.lists table.now).edges ≤ 2048 → Indexes result (T.lists table.now).edges }
    {
        let count = table.edge_count().min(limits::EDGES);
        let mut index = Index::none(count);
        for k in (0..count).rev() {
            if let Some(edge) = table.edge(k) {
                index.put(edge.start(), k);
            }
        }
        index
    }

    /// Edge k, which leaves the location, comes before those above it.
    #[tactic(auto, unfolding(crate::specs::Indexing::headed, crate::specs::Indexing::linked))]
    fn put(&mut self, site: Site, k: usize)
        requires { k < 2048 }
        ensures firsts { self.new.first ≡ headed self.old.first site.process site.location k }
        ensures nexts { self.new.next ≡ linked self.old.first self.old.next site.process site.location k }
    {
        if let Some(i) = site.index() {
            self.next[k] = self.first[i];
            self.first[i] = k as u16;
        } else {
            self.next[k] = k as u16 + 1;
        }
    }

    /// The first edge that leaves the location, or the number of edges where none does. Of a location that no table has
    /// nothing is known: 0.
    pub fn first_leaving(&self, site: Site) -> usize
        ensures { (es : List Edge) → Indexes self.now es → result ≡ known es site.process site.location 0 }
    {
        site.pick(&self.first, 0).into()
    }

    /// The next edge after edge k that leaves the same location, or the number of edges where none does. After an edge
    /// whose location no table has: k + 1.
    pub fn next_leaving(&self, k: usize) -> usize
        ensures { (es : List Edge) (e : Edge) → Indexes self.now es → slice_get es k ≡ Some e → result ≡ known es e.process e.from (k + 1) }
    {
        self.next.get(k).copied().unwrap_or(0).into()
    }
}
