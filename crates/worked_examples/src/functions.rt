//! Functions, their parameters and own names, and what code can name while it runs.

ghost use Rattle.std.specs.Prelude.{[], ◌∷◌};
ghost use Rattle.worked_examples.specs.Asked.{defaults, keeping_functions, with_top_level};
ghost use Rattle.worked_examples.specs.Functions as row;
ghost use Rattle.worked_examples.specs.Judged.{Bound, Fewest, Free, IsAnswer, IsRefusedBy, Plain, Stay};

/// Bindings of a script's root keep their names, unless it is asked that they don't.
pub fn script_keeps_top_level()
    ensures answer { IsAnswer defaults row.declared_function row.declared_function_mangled }
    ensures asked { IsAnswer with_top_level row.declared_function row.declared_function_all_mangled }
    ensures renamed { IsRefusedBy (Stay ∷ []) defaults row.declared_function row.declared_function_all_mangled }
{}

/// The name of a function expression and a parameter or declaration of its body that shadows it have
/// one name; where functions keep their names, the function's stays.
pub fn shadowed_function_name()
    ensures answer { IsAnswer defaults row.shadowed_name row.shadowed_name_mangled }
    ensures two_names { IsRefusedBy (Fewest ∷ []) defaults row.shadowed_name row.shadowed_name_by_two_names }
    ensures kept { IsAnswer keeping_functions row.shadowed_name row.shadowed_name_kept }
    ensures not_kept { IsRefusedBy (Stay ∷ []) keeping_functions row.shadowed_name row.shadowed_name_mangled }
    ensures by_let { IsAnswer defaults row.shadowed_by_let row.shadowed_by_let_mangled }
{}

/// An arrow function has a scope of its own, with a body and without.
pub fn arrows_declare()
    ensures { IsAnswer defaults row.arrows row.arrows_mangled }
{}

/// A function's own name and its parameters are in use together, whether or not it calls itself.
pub fn function_name_keeps_apart()
    ensures unused { IsAnswer defaults row.unshadowed_name row.unshadowed_name_mangled }
    ensures used { IsAnswer defaults row.recursion row.recursion_mangled }
    ensures one_name { IsRefusedBy (Bound ∷ Fewest ∷ []) defaults row.recursion row.recursion_by_one_name }
    ensures declared { IsAnswer defaults row.recursive_declaration row.recursive_declaration_mangled }
{}

/// A default may name its own function: that is no fault, though parameters and body are one scope.
pub fn default_names_its_function()
    ensures answer { IsAnswer defaults row.default_of_function row.default_of_function_mangled }
    ensures one_name { IsRefusedBy (Bound ∷ Fewest ∷ []) defaults row.default_of_function row.default_of_function_by_one_name }
{}

/// What a direct eval can name stays, and is never given to another binding. `eval` under another name
/// sees none of them, nor does an optional call of it.
pub fn direct_eval_keeps()
    ensures answer { IsAnswer defaults row.direct_eval row.direct_eval_mangled }
    ensures renamed { IsRefusedBy (Stay ∷ []) defaults row.direct_eval row.direct_eval_renamed }
    ensures kept_name { IsRefusedBy (Free ∷ []) defaults row.direct_eval row.direct_eval_by_kept_name }
    ensures indirect { IsAnswer defaults row.indirect_eval row.indirect_eval_mangled }
    ensures optional { IsAnswer defaults row.optional_eval row.optional_eval_mangled }
{}

/// What a `with` statement's object may have as a property stays; what is declared in its body
/// doesn't.
pub fn with_statement_keeps()
    ensures answer { IsAnswer defaults row.with_statement row.with_statement_mangled }
    ensures renamed { IsRefusedBy (Stay ∷ []) defaults row.with_statement row.with_statement_renamed }
{}

/// A binding named `arguments` keeps its name, since each function has one of its own.
pub fn arguments_stays()
    ensures answer { IsAnswer defaults row.arguments_declared row.arguments_declared_mangled }
    ensures renamed { IsRefusedBy (Stay ∷ []) defaults row.arguments_declared row.arguments_renamed }
{}

/// The words of `new.target` are no variables: they stay.
pub fn new_target_stays()
    ensures answer { IsAnswer defaults row.new_target row.new_target_mangled }
    ensures renamed { IsRefusedBy (Plain ∷ []) defaults row.new_target row.new_target_renamed }
{}

/// A function in a parameter's default sees the other parameters.
pub fn function_in_default_sees_parameters()
    ensures answer { IsAnswer defaults row.function_in_default row.function_in_default_mangled }
    ensures captured { IsRefusedBy (Bound ∷ []) defaults row.function_in_default row.function_in_default_captured }
{}

/// A library in its wrapper: names that aren't in use together are given twice. Refused is the tree
/// in which a parameter captures the counter.
pub fn umd_wrapper()
    ensures answer { IsAnswer defaults row.umd_wrapper row.umd_wrapper_mangled }
    ensures captured { IsRefusedBy (Bound ∷ []) defaults row.umd_wrapper row.umd_wrapper_captured }
{}
