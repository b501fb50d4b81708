//! What the least marks of a small table are, as a theorem: marks of everything, of nothing, of the inputs alone, or that forget an
//! output, a set timer or that a variable is overwritten, are not the least ones.
ghost use Rattle.marking.specs.Example.{Shown};

/// Holds of all least marks of the table in specs/Example.antt.
pub fn small_table_is_told()
    ensures shown { Shown }
{}
