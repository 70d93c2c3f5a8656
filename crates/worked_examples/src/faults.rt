//! Faults in scopes, each alone, and trees beside them that have none.

ghost use Rattle.std.specs.Prelude.{IsTrue};
ghost use Rattle.worked_examples.specs.Asked.{defaults};
ghost use Rattle.worked_examples.specs.Faulty as row;
ghost use Rattle.worked_examples.specs.Judged.{Crossing, IsAnswer, IsFaulty, Reach, Redeclaration, SloppyFunction, Undeclared, is_valid};

/// Each fault alone. A parameter reaches a declaration of the body also from a function inside its
/// default, and by the function's own name where the body declares it; a directive in a function's own
/// body doesn't make its declaration strict.
pub fn scope_faults()
    ensures redeclared { IsFaulty Redeclaration row.redeclared }
    ensures parameter_redeclared { IsFaulty Redeclaration row.parameter_redeclared }
    ensures catch_redeclared { IsFaulty Redeclaration row.catch_parameter_redeclared }
    ensures block_function_redeclared { IsFaulty Redeclaration row.block_function_redeclared }
    ensures crossed { IsFaulty Crossing row.crossed }
    ensures catch_crossed { IsFaulty Crossing row.catch_crossed }
    ensures using_crossed { IsFaulty Crossing row.using_crossed }
    ensures body_reached { IsFaulty Reach row.body_reached }
    ensures reached_from_inside { IsFaulty Reach row.body_reached_from_inside }
    ensures own_name_reached { IsFaulty Reach row.own_name_reached }
    ensures undeclared_private { IsFaulty Undeclared row.undeclared_private }
    ensures sloppy_function { IsFaulty SloppyFunction row.sloppy_function }
    ensures own_directive { IsFaulty SloppyFunction row.sloppy_function_with_directive }
{}

/// A function in a block is sound in a module, in a script or function that asks for strict code, in a
/// class, and where it is async; a parameter may be declared again in the body and named by a later default; `var`s and
/// functions of one scope may have one name; a `var` may have the name of what is declared outside its
/// function.
pub fn no_faults()
    ensures module { IsAnswer defaults row.strict_function row.strict_function_mangled }
    ensures directed { IsTrue (is_valid row.directed_function) }
    ensures in_directed { IsTrue (is_valid row.function_in_directed) }
    ensures in_class { IsTrue (is_valid row.function_in_class) }
    ensures async_function { IsTrue (is_valid row.async_function_in_block) }
    ensures parameter { IsTrue (is_valid row.parameter_reached) }
    ensures joined { IsTrue (is_valid row.joined) }
    ensures inside { IsTrue (is_valid row.declared_inside) }
{}
