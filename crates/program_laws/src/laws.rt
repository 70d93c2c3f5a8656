//! The laws on programs. The functions here do nothing: each has a law as its contract.

ghost use Rattle.program_laws.specs.Laws.{
  NamesOfProgramsSeparate,
  NoRivalOfAProgramUsesFewer,
  ProgramsAreRooted,
  ProgramsKeepFunctionNamesApart,
  ProgramsNameFunctionsOnce,
};
ghost use Rattle.program_laws.specs.Least.{ProgramsGetLeastNames};

/// The law that in a program each function expression has one Identifier as its name, or none.
pub fn programs_name_functions_once()
    ensures { ProgramsNameFunctionsOnce }
{}

/// The law that in a program no two function-names have one home.
pub fn programs_keep_function_names_apart()
    ensures { ProgramsKeepFunctionNamesApart }
{}

/// The law that in a program each place lies in a var scope.
pub fn programs_are_rooted()
    ensures { ProgramsAreRooted }
{}

/// The law of separation for programs: in one without a crossing, where a binding is live in the home of
/// another and the two have one name, one is a function-name and the other its shadower.
pub fn names_of_programs_separate()
    ensures { NamesOfProgramsSeparate }
{}

/// The law that no rival of a program uses fewer names: in each, the bindings that aren't kept have at
/// least as many different names as groups are live in the program's busiest scope.
pub fn no_rival_of_a_program_uses_fewer()
    ensures { NoRivalOfAProgramUsesFewer }
{}

/// The law that no names do better than those a program gets (`IsLeast`): no rival has fewer different ones for
/// the bindings that aren't kept, no choice of free names makes the references to these shorter in sum, and
/// each is a candidate below a limit that is below 2 ^ 31.
pub fn programs_get_least_names()
    ensures { ProgramsGetLeastNames }
{}
