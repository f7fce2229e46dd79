//! The parts of a value, found by following children.
ghost use Rattle.gv_view.specs.Laws.{PartsAreLent};

/// Following `child` any number of times gives the part of the decoded value that the same indices lead to, lent as
/// that part's own bytes.
///
/// It is a law: nothing is computed.
pub fn parts_are_lent()
    ensures { PartsAreLent }
{}
