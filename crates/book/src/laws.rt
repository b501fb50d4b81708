//! What holds of lists of calls on a book.
ghost use Rattle.book.specs.Example.{Entered};

/// The worked example, entered call by call with refused calls among them, marked, changed, changed back and marked again: what
/// each call answers, that ready passes then, and what close means.
pub fn example_is_entered()
    ensures { Entered }
{}
