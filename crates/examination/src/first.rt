//! The first fault of many things that are numbered from 0.
ghost use Rattle.std.specs.Prelude.{◌≡◌, ℕ, ◌<◌, Option, Result};
ghost use Rattle.examination.specs.Firsts.{first_told};
ghost use Rattle.refusal.specs.Refusals.{outcome};
ghost use Rattle.refusal.specs.declared.fault.Refusal.{Refusal};

/// Checks the numbers below `count` in turn, up to the first that has a fault.
pub fn first_fault<E, F: Fn(usize) -> Result<(), E>>(count: usize, check: F) -> Result<(), E>
    requires { (i : ℕ) → i < count → F.pre check i }
    ensures { (refused : E → Refusal) (f : ℕ → Option Refusal) → ((i : ℕ) (r : Result (Unit {0}) E) → i < count → F.post check i r → outcome refused r ≡ f i) → outcome refused result ≡ first_told f 0 count }
{
    for i in 0..count {
        check(i)?;
    }
    Ok(())
}
