//! Words with one bit.
ghost use Rattle.std.specs.Prelude.{◌≡◌, ℕ, ◌<◌, ◌==◌};
ghost use Rattle.marks.specs.Words.{bit};

/// The word with just that bit, if it has such a bit.
#[tactic(auto, using(crate::proofs::Masks::single_bit, crate::proofs::Masks::single_none))]
pub fn single(number: usize) -> u16
    ensures { (b : ℕ) → b < 16 → bit result b ≡ (number == b) }
{
    if number < 16 { 1 << number } else { 0 }
}
