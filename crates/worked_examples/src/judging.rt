//! How the rows judge a tree.

ghost use Rattle.worked_examples.specs.Judged.{FailingRefuses, NoneFailingMangles};

/// The law that a tree which fails a clause isn't mangled.
pub fn failing_refuses()
    ensures { FailingRefuses }
{}

/// The law that a tree which fails none is.
pub fn none_failing_mangles()
    ensures { NoneFailingMangles }
{}
