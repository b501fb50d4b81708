//! What all edges of a table do to marks.
ghost use Rattle.std.specs.Prelude.{◌≡◌, ℕ, ◌≤◌, ◌<◌, true, false, [], None, Some, length};
ghost use Rattle.std.specs.List.{slice_get};
ghost use Rattle.marking.specs.Flows.{Flowing, Standing, Stands};
ghost use Rattle.marking.specs.Instances.{Fits, given, holds};
ghost use Rattle.marking.specs.Leads.{at_end, at_start, is_inbound, touches};
ghost use Rattle.marking.specs.Searching.{Allowed, Followed, Grew, LeastFrom, ObeysButWaiting, Marked, Reached, Taken, state};
ghost use Rattle.marks.specs.Rules.{Obeys, arrives, class_at};
ghost use Rattle.marks.specs.Words.{marks_in};
ghost use Rattle.table.specs.Examination.{examined};
ghost use Rattle.table.specs.Lists.{Lists};
ghost use Rattle.table.specs.declared.record.Edge.{Edge};

use crate::flow::{Fed, Flow};
use crate::instance::Instance;
use crate::search::Search;
use loading::index::{Index, Inputs};
use marks::marks::bit;
use table::limits;
use table::questions::{Table, class_of};
use table::record::Class;

/// A flow for each edge, which edges leave which location, and which of them take which signal.
#[derive(Clone, Copy)]
pub struct Flows<'a> {
    pub flows: &'a [Flow],
    pub index: &'a Index,
    pub inputs: &'a Inputs,
}

/// Works out the flow of each edge of the table.
pub fn work_out<T: Table>(table: &T, flows: &mut [Flow])
    requires good { examined (T.lists table.now) ≡ None }
    requires room { length (T.lists table.now).edges ≤ length flows.old }
    ensures places { length flows.new ≡ length flows.old }
    ensures stand { Standing (T.lists table.now) flows.new (length (T.lists table.now).edges) }
{
    for k in 0..table.edge_count() {
        if let Some(edge) = table.edge(k) {
            flows[k] = Flow::of(table, &edge);
        }
    }
}

impl Search {
    /// An instance with that index is marked where the edge ends, if the edge leaves it as it is.
    fn pass(&mut self, flow: &Flow, index: u8)
        requires { index < 16 }
        ensures passed { (T : Lists) (e : Edge) → Stands T e flow.now → touches e index ≡ false → Marked (state self.new) (at_end e index) }
        ensures grew { (T : Lists) (e : Edge) → Stands T e flow.now → Grew T (λ N. touches e index ≡ false → holds N (at_end e index) ≡ true) (state self.old) (state self.new) }
    {
        if bit(flow.kept, index.into()) {
            self.mark(Instance {
                site: flow.to,
                index,
            });
        }
    }
}

impl<'a> Flows<'a> {
    /// Marks what each input of the signal stores.
    fn store<T: Table>(&self, table: &T, search: &mut Search, signal: usize)
        requires flowing { Flowing (T.lists table.now) self.now }
        requires known { signal < 64 }
        ensures same { search.new.signals ≡ search.old.signals }
        ensures taken { Taken (T.lists table.now) (state search.new) signal }
        ensures grew { Grew (T.lists table.now) (λ N. arrives (T.lists table.now) N signal ≡ true) (state search.old) (state search.new) }
    {
        let mut k = self.inputs.first_taking(signal);
        while k < table.edge_count() {
            if let Some(instance) = self.flows[k].stored {
                search.mark(instance);
            }
            k = self.inputs.next_taking(k);
        }
    }

    /// The signal brings marked values: its inputs store them. They are gone through once.
    fn give<T: Table>(&self, table: &T, search: &mut Search, signal: usize)
        requires { Flowing (T.lists table.now) self.now }
        ensures given { signal < 64 → given search.new.signals signal ≡ true }
        ensures grew { Grew (T.lists table.now) (λ N. arrives (T.lists table.now) N signal ≡ true) (state search.old) (state search.new) }
    {
        if signal < limits::SIGNALS && !search.signals[signal] {
            search.signals[signal] = true;
            self.store(table, search, signal);
        }
    }

    /// Inbound signals bring marked values.
    pub fn plant<T: Table>(&self, table: &T, search: &mut Search)
        requires { Flowing (T.lists table.now) self.now }
        ensures inbound { (n : ℕ) → n < 64 → is_inbound (class_at (T.lists table.now) n) ≡ true → given search.new.signals n ≡ true }
        ensures grew { Grew (T.lists table.now) (λ N. Unit {0}) (state search.old) (state search.new) }
    {
        for signal in 0..limits::SIGNALS {
            if let Class::Inbound = class_of(table, signal as u8) {
                self.give(table, search, signal);
            }
        }
    }

    /// A value of an edge is marked.
    fn feed<T: Table>(&self, table: &T, search: &mut Search, fed: Fed)
        requires { Flowing (T.lists table.now) self.now }
        ensures reached { Reached (state search.new) fed }
        ensures grew { Grew (T.lists table.now) (λ N. Allowed (T.lists table.now) N fed) (state search.old) (state search.new) }
    {
        match fed {
            Fed::Nothing => {}
            Fed::Instance(instance) => search.mark(instance),
            Fed::Signal(signal) => self.give(table, search, signal.into()),
        }
    }

    /// Follows an instance with that index along edge k, which leaves its location.
    fn carry<T: Table>(&self, table: &T, search: &mut Search, k: usize, index: u8)
        requires flowing { Flowing (T.lists table.now) self.now }
        requires there { k < length (T.lists table.now).edges }
        requires index { index < 16 }
        ensures followed { (e : Edge) → slice_get (T.lists table.now).edges k ≡ Some e → Followed (T.lists table.now) (state search.new) e index }
        ensures grew { (e : Edge) → slice_get (T.lists table.now).edges k ≡ Some e → Grew (T.lists table.now) (λ N. holds N (at_start e index) ≡ true) (state search.old) (state search.new) }
    {
        let flow = &self.flows[k];
        search.pass(flow, index);
        if bit(flow.read, index.into()) {
            self.feed(table, search, flow.fed);
        }
    }

    /// Follows an instance along the edges that leave its location.
    fn follow<T: Table>(&self, table: &T, search: &mut Search, instance: Instance)
        requires flowing { Flowing (T.lists table.now) self.now }
        requires fits { Fits instance }
        ensures followed { (k : ℕ) (e : Edge) → slice_get (T.lists table.now).edges k ≡ Some e → at_start e instance.index ≡ instance → Followed (T.lists table.now) (state search.new) e instance.index }
        ensures grew { Grew (T.lists table.now) (λ N. holds N instance ≡ true) (state search.old) (state search.new) }
    {
        let mut k = self.index.first_leaving(instance.location());
        while k < table.edge_count() {
            self.carry(table, search, k, instance.index);
            k = self.index.next_leaving(k);
        }
    }

    /// Follows whatever waits, and what is marked on the way, until nothing waits. The search may have begun anywhere: of the markings
    /// that obey the rules and have all that was marked in it, what is marked now is the least.
    pub fn settle<T: Table>(&self, table: &T, search: &mut Search)
        requires flowing { Flowing (T.lists table.now) self.now }
        requires kept { ObeysButWaiting (T.lists table.now) (state search.old) }
        ensures obeys { Obeys (T.lists table.now) (marks_in search.new.words) }
        ensures kept { ObeysButWaiting (T.lists table.now) (state search.new) }
        ensures still { (state search.new).queue ≡ [] }
        ensures grown { LeastFrom (T.lists table.now) (state search.old) (state search.new) }
    {
        while let Some(instance) = search.next() {
            self.follow(table, search, instance);
        }
    }
}
