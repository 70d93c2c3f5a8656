//! What the findings of a tree say of its faults. The function here does nothing: it has the law as its contract.

ghost use Rattle.scope_report.specs.Laws.{FaultsAreFound};

/// The law that the scopes of a tree have a fault exactly where one is among its findings.
pub fn faults_are_found()
    ensures { FaultsAreFound }
{}
