//! The test: whether a table can be closed, and how many edges it then has.
ghost use Rattle.std.specs.Prelude.{◌≡◌, ◌≤◌, not, length, is_some};
ghost use Rattle.closing.specs.Faults.{measuring, testing};
ghost use Rattle.closing.specs.Plans.{ninth_in, count_in, room_refused, test_refused_in};
ghost use Rattle.rules.specs.Promise.{Measured, Tests};
ghost use Rattle.rules.specs.Steps.{answer};
ghost use Rattle.table.specs.Examination.{first_from};

use crate::fault::TestFault;
use crate::plan::Plan;
use examination::examine;
use marking::mark;
use marks::marks::Marks;
use table::limits;
use table::questions::Table;

impl Plan {
    /// Whether there is room for the chaos timers and the added edges; answers how many edges there then are.
    #[tactic(auto, unfolding(crate::specs::Plans::room_refused))]
    pub(crate) fn check_room<T: Table>(&self, table: &T) -> Result<usize, TestFault>
        requires { length (T.lists table.now).edges ≤ 2048 }
        ensures { testing result ≡ answer (room_refused self.now (T.lists table.now)) (count_in self.now (T.lists table.now)) }
    {
        if let Some(process) = self.first_full(table.process_count()) {
            return Err(TestFault::NinthTimer(process));
        }
        let edges = table.edge_count() + self.loops.wanted();
        if edges > limits::EDGES {
            return Err(TestFault::Edges(edges));
        }
        Ok(edges)
    }

    /// The first of so many processes that gains a chaos timer and has no room for it.
    fn first_full(&self, processes: usize) -> Option<usize>
        ensures { result ≡ first_from (ninth_in self.now) 0 processes }
    {
        (0..processes).find(|p| self.is_full(*p))
    }

    fn is_full(&self, process: usize) -> bool
        ensures { result ≡ ninth_in self.now process }
    {
        self.survey.is_chaotic(process) && self.timers_of(process) >= limits::TIMERS
    }

    /// Whether the table passes the test, by this plan.
    #[tactic(auto, using(crate::proofs::Fitting::deciding))]
    pub(crate) fn passes<T: Table>(&self, table: &T) -> bool
        ensures { result ≡ not (is_some (test_refused_in self.now (T.lists table.now))) }
    {
        examine(table).is_ok() && self.check_room(table).is_ok()
    }
}

/// The least marks of a table that can be closed, and how many edges the closed table has.
#[tactic(auto, using(crate::proofs::Fitting::deciding))]
pub fn measure<T: Table>(table: &T) -> Result<(Marks, usize), TestFault>
    ensures { Measured (T.lists table.now) (measuring result) }
{
    let marks = mark(table)?;
    let edges = Plan::of(table, &marks).check_room(table)?;
    Ok((marks, edges))
}

/// Whether the table can be closed; answers how many edges the closed table has.
#[tactic(auto, using(crate::proofs::Fitting::tests_measured))]
pub fn test<T: Table>(table: &T) -> Result<usize, TestFault>
    ensures { Tests (T.lists table.now) (testing result) }
{
    let (_, edges) = measure(table)?;
    Ok(edges)
}
