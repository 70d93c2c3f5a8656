//! Names that functions and classes take from their bindings, where these are to be kept.

ghost use Rattle.std.specs.Prelude.{◌≡◌, [], ◌∷◌, codes};
ghost use Rattle.worked_examples.specs.Asked.{defaults, keeping_classes, keeping_functions};
ghost use Rattle.worked_examples.specs.Judged.{IsAnswer, IsRefusedBy, Stay, names_kept};
ghost use Rattle.worked_examples.specs.KeptNames as row;

/// A declared function has its binding's name, and so has a function without a name that is assigned
/// to it, by whatever operator. A function expression with a name of its own hasn't.
pub fn names_that_functions_need()
    ensures declared { names_kept (keeping_functions row.named_function) row.named_function ≡ codes "foo" ∷ [] }
    ensures declared_answer { IsAnswer keeping_functions row.named_function row.named_function }
    ensures declared_renamed { IsRefusedBy (Stay ∷ []) keeping_functions row.named_function row.named_function_renamed }
    ensures assigned { names_kept (keeping_functions row.assigned_function) row.assigned_function ≡ codes "foo" ∷ [] }
    ensures assigned_answer { IsAnswer keeping_functions row.assigned_function row.assigned_function }
    ensures assigned_renamed { IsRefusedBy (Stay ∷ []) keeping_functions row.assigned_function row.assigned_function_renamed }
    ensures own { names_kept (keeping_functions row.named_expression) row.named_expression ≡ codes "bar" ∷ [] }
    ensures own_answer { IsAnswer keeping_functions row.named_expression row.named_expression_mangled }
{}

/// A function or class without a name that is a declaration's initial value has its name; a class
/// expression with a name of its own keeps that. Each where its kind is to be kept alone.
pub fn names_of_initial_values()
    ensures function { names_kept (keeping_functions row.initial_values) row.initial_values ≡ codes "foo" ∷ [] }
    ensures function_answer { IsAnswer keeping_functions row.initial_values row.initial_values_for_functions }
    ensures arrow { IsAnswer keeping_functions row.initial_arrow row.initial_arrow }
    ensures class { names_kept (keeping_classes row.initial_values) row.initial_values ≡ codes "Bar" ∷ [] }
    ensures class_answer { IsAnswer keeping_classes row.initial_values row.initial_values_for_classes }
    ensures own { names_kept (keeping_classes row.named_class_expression) row.named_class_expression ≡ codes "Foo" ∷ [] }
    ensures own_answer { IsAnswer keeping_classes row.named_class_expression row.named_class_expression_mangled }
{}

/// A class that is the default of a pattern's name has that name, and so has a function that is the
/// default in a pattern which is assigned to. A function in what is left, by `...`, hasn't, nor has
/// a default there, and a parameter's default isn't looked at.
pub fn names_that_patterns_give()
    ensures default_class { names_kept (keeping_classes row.class_by_default) row.class_by_default ≡ codes "Foo" ∷ [] }
    ensures default_answer { IsAnswer keeping_classes row.class_by_default row.class_by_default }
    ensures default_renamed { IsRefusedBy (Stay ∷ []) keeping_classes row.class_by_default row.class_by_default_renamed }
    ensures target { names_kept (keeping_functions row.target_default) row.target_default ≡ codes "foo" ∷ [] }
    ensures target_answer { IsAnswer keeping_functions row.target_default row.target_default }
    ensures target_renamed { IsRefusedBy (Stay ∷ []) keeping_functions row.target_default row.target_default_renamed }
    ensures rest { names_kept (keeping_functions row.function_in_rest) row.function_in_rest ≡ [] }
    ensures rest_answer { IsAnswer keeping_functions row.function_in_rest row.function_in_rest_mangled }
    ensures in_rest { IsAnswer keeping_functions row.default_in_rest row.default_in_rest_mangled }
    ensures parameter { names_kept (keeping_functions row.parameter_default) row.parameter_default ≡ codes "foo" ∷ [] }
    ensures parameter_answer { IsAnswer keeping_functions row.parameter_default row.parameter_default_mangled }
{}

/// Of two defaults of one binding in a pattern the first decides.
pub fn first_default_decides()
    ensures second { names_kept (keeping_functions row.second_default) row.second_default ≡ [] }
    ensures second_answer { IsAnswer keeping_functions row.second_default row.second_default_mangled }
    ensures first { names_kept (keeping_functions row.first_default) row.first_default ≡ codes "a" ∷ [] }
    ensures first_answer { IsAnswer keeping_functions row.first_default row.first_default }
    ensures first_renamed { IsRefusedBy (Stay ∷ []) keeping_functions row.first_default row.first_default_renamed }
{}

/// Where a class keeps its name, a function name that it shadows stays too. Where functions do, the
/// class is renamed.
pub fn kept_shadower_keeps_function_name()
    ensures answer { IsAnswer keeping_classes row.class_in_function row.class_in_function }
    ensures renamed { IsRefusedBy (Stay ∷ []) keeping_classes row.class_in_function row.class_in_function_renamed }
    ensures not_asked { IsAnswer defaults row.class_in_function row.class_in_function_mangled }
    ensures functions { IsAnswer keeping_functions row.class_in_function row.class_in_function_for_functions }
{}
