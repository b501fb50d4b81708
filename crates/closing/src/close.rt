//! Closing a table.
ghost use Rattle.std.specs.Prelude.{◌≡◌, ℕ, IfErr, IfOk, Err, Ok};
ghost use Rattle.closing.specs.Faults.{test_refusal};
ghost use Rattle.closing.specs.Layers.{layered};
ghost use Rattle.marks.specs.Words.{marking};
ghost use Rattle.rules.specs.Closing.{closed_by};
ghost use Rattle.rules.specs.Promise.{ClosedBy, Closes, Measured, Tests};

use crate::fault::TestFault;
use crate::layer::Layer;
use crate::plan::Plan;
use marking::mark;
use marks::marks::Marks;
use table::questions::Table;

/// The table closed by these marks, or as it is where the test by them refuses.
#[tactic(auto, using(crate::proofs::Fitting::deciding))]
pub fn close_by<T: Table>(table: T, marks: &Marks) -> Layer<T>
    ensures meaning { layered result.plan (T.lists result.below) ≡ closed_by (T.lists table) (marking marks.now) }
    ensures below { result.below ≡ table }
{
    let plan = Plan::of(&table, marks);
    let plan = plan.passes(&table).then_some(plan);
    Layer { below: table, plan }
}

/// The table closed by its least marks, or as it is where the test refuses.
pub fn close<T: Table>(table: T) -> Layer<T>
    ensures closes { Closes (T.lists table) (layered result.plan (T.lists result.below)) }
    ensures tested { (n : ℕ) → Tests (T.lists table) (Ok n) → ClosedBy (T.lists table) (layered result.plan (T.lists result.below)) }
    ensures below { result.below ≡ table }
{
    close_marked(table)
}

/// Marks the table and closes it by its marks.
#[tactic(auto, using(crate::proofs::Fitting::deciding))]
fn close_marked<T: Table>(table: T) -> Layer<T>
    ensures closes { Closes (T.lists table) (layered result.plan (T.lists result.below)) }
    ensures below { result.below ≡ table }
{
    match mark(&table) {
        Ok(marks) => close_by(table, &marks),
        Err(_) => unclosed(table),
    }
}

/// Tests and closes at once: the table closed by its least marks, and these; or why it cannot be closed.
#[tactic(auto, using(crate::proofs::Fitting::deciding))]
pub fn close_tested<T: Table + Drop>(table: T) -> Result<(Layer<T>, Marks), TestFault>
    ensures refused { IfErr result (λ f. Measured (T.lists table) (Err (test_refusal f))) }
    ensures measured { IfOk result (λ c. (n : ℕ) × Measured (T.lists table) (Ok (marking c.1, n))) }
    ensures meaning { IfOk result (λ c. layered c.0.plan (T.lists c.0.below) ≡ closed_by (T.lists table) (marking c.1)) }
    ensures closes { IfOk result (λ c. ClosedBy (T.lists table) (layered c.0.plan (T.lists c.0.below))) }
    ensures below { IfOk result (λ c. c.0.below ≡ table) }
{
    let marks = mark(&table)?;
    let plan = Plan::of(&table, &marks);
    plan.check_room(&table)?;
    let layer = Layer {
        below: table,
        plan: Some(plan),
    };
    Ok((layer, marks))
}

/// The table as it is.
#[tactic(auto, using(crate::proofs::Layering::answering))]
pub fn unclosed<T: Table>(table: T) -> Layer<T>
    ensures meaning { layered result.plan (T.lists result.below) ≡ T.lists table }
    ensures below { result.below ≡ table }
{
    Layer {
        below: table,
        plan: None,
    }
}
