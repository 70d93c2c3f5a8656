//! What a renamed program is. The function here does nothing: it has a law as its contract.

ghost use Rattle.tree_rename.specs.Laws.{RenamedProgramsArePrograms};

/// The law that a program renamed is a program, if its names are identifier names of at most
/// 4,294,967,295 bytes.
pub fn renamed_programs_are_programs()
    ensures { RenamedProgramsArePrograms }
{}
