//! Adding loops, by process, waiting location and timer.
ghost use Rattle.std.specs.Prelude.{◌≡◌, ◌+◌, ◌<◌, ◌≤◌, min, [], ◌∷◌, ◌++◌, length};
ghost use Rattle.arrayvec.specs.ArrayVec.{array_vec_len};
ghost use Rattle.std.specs.List.{slice_get};
ghost use Rattle.loops.specs.Rows.{turn_edge, edges_of, timer_edges, spot_timers, at_spot, shape, of_process, added_by};
ghost use Rattle.marks.specs.Words.{marking};
ghost use Rattle.survey.specs.Surveys.{spot_at, chaotic_at};
ghost use Rattle.table.specs.Lists.{meant};

use crate::row::{Loop, Loops, Place, Turn};
use arrayvec::ArrayVec;
use marks::marks::{Marks, Sort, bit};
use survey::spots::{Spot, Survey};
use table::limits;
use table::questions::{Table, process_or_blank};
use table::record::Process;

#[tactic(auto, using(crate::proofs::Rows::growth))]
impl Loops {
    fn none() -> Self
        ensures edges { edges_of result ≡ [] }
        ensures bound { array_vec_len result.items ≡ 0 }
    {
        Loops {
            items: ArrayVec::new(),
        }
    }

    fn push(&mut self, place: Place, timer: u8, turn: Turn)
        requires { array_vec_len self.old.items < 2176 }
        ensures edges { edges_of self.new ≡ edges_of self.old ++ turn_edge turn place.process place.location timer ∷ [] }
        ensures bound { array_vec_len self.new.items ≡ array_vec_len self.old.items + 1 }
    {
        self.items.push(Loop { place, timer, turn });
    }

    /// What is added for a timer: nothing unless it is marked; a timeout unless an edge handles it; a rearm.
    fn add_timer(&mut self, place: Place, timer: u8, marked: bool, handled: bool)
        requires { array_vec_len self.old.items + 2 ≤ 2176 }
        ensures edges { edges_of self.new ≡ edges_of self.old ++ timer_edges marked handled place.process place.location timer }
        ensures bound { array_vec_len self.new.items ≤ array_vec_len self.old.items + 2 }
    {
        if !marked {
            return;
        }
        if !handled {
            self.push(place, timer, Turn::Timeout);
        }
        self.push(place, timer, Turn::Rearm);
    }

    /// What is added at a location for its first timers.
    fn add_timers(&mut self, marks: &Marks, spot: Spot, place: Place, timers: u8)
        requires room { array_vec_len self.old.items + 16 ≤ 2176 }
        requires few { timers ≤ 8 }
        ensures edges { edges_of self.new ≡ edges_of self.old ++ spot_timers (marking marks.now) spot place.process place.location timers }
        ensures bound { array_vec_len self.new.items ≤ array_vec_len self.old.items + 16 }
    {
        for timer in 0..timers {
            let index = usize::from(timer);
            let marked = marks.has(Sort::Timer, place.site(), index);
            self.add_timer(place, timer, marked, bit(spot.handled, index));
        }
    }

    /// What is added at a location: nothing if it is acting.
    fn add_spot(&mut self, marks: &Marks, survey: &Survey, place: Place, timers: u8)
        requires room { array_vec_len self.old.items + 17 ≤ 2176 }
        requires few { timers ≤ 8 }
        ensures edges { edges_of self.new ≡ edges_of self.old ++ at_spot (marking marks.now) (spot_at survey.now.spots place.process place.location) (chaotic_at survey.now.chaotic place.process) place.process place.location timers }
        ensures bound { array_vec_len self.new.items ≤ array_vec_len self.old.items + 17 }
    {
        let spot = survey.spot(place.site());
        if spot.acting {
            return;
        }
        if survey.is_chaotic(place.process.into()) {
            self.push(place, timers, Turn::Rearm);
        }
        self.add_timers(marks, spot, place, timers);
    }

    /// What is added to process p, as far as it has the locations and timers that a process may have.
    fn add_process(&mut self, marks: &Marks, survey: &Survey, p: u8, process: &Process)
        requires { array_vec_len self.old.items + 272 ≤ 2176 }
        ensures edges { edges_of self.new ≡ edges_of self.old ++ of_process (marking marks.now) survey.now.spots survey.now.chaotic (shape (meant process.now)) p (shape (meant process.now)).locations }
        ensures bound { array_vec_len self.new.items ≤ array_vec_len self.old.items + 272 }
    {
        let timers = process.timers.min(limits::TIMERS);
        for location in 0..process.locations.min(limits::LOCATIONS) {
            let place = Place {
                process: p,
                location,
            };
            self.add_spot(marks, survey, place, timers);
        }
    }

    /// All that is added to the table, by what was seen of it.
    pub fn of<T: Table>(table: &T, marks: &Marks, survey: &Survey) -> Self
        ensures edges { edges_of result ≡ added_by (marking marks.now) survey.now.spots survey.now.chaotic (T.lists table.now).processes (min (length (T.lists table.now).processes) 8) }
    {
        let mut loops = Loops::none();
        for p in 0..table.process_count().min(limits::PROCESSES) {
            loops.add_process(marks, survey, p as u8, &process_or_blank(table, p));
        }
        loops
    }

    /// How many are wanted.
    pub fn wanted(&self) -> usize
        ensures value { result ≡ length (edges_of self.now) }
        ensures bound { result ≤ 2176 }
    {
        self.items.len()
    }

    /// The loop with that number; none beyond those that are there.
    pub fn at(&self, k: usize) -> Option<Loop>
        ensures value { result ≡ slice_get self.now.items.items k }
    {
        self.items.get(k).copied()
    }
}
