use bundle_rules::{
    bundles_have_no_fault, bundles_keep_bindings, bundles_keep_private_names, joining_moves_places,
    modules_share_no_binding,
};
use program_laws::{
    names_of_programs_separate, no_rival_of_a_program_uses_fewer, programs_are_rooted,
    programs_get_least_names, programs_keep_function_names_apart, programs_name_functions_once,
};
use scope_rules::{bindings_stay, faults_are_never_new, redeclarations_stand_at_places};

#[test]
fn laws_hold_of_names_of_any_types() {
    bindings_stay::<u8, u32>();
    faults_are_never_new::<u8, u32>();
    redeclarations_stand_at_places::<u32>();
}

#[test]
fn laws_hold_of_programs() {
    programs_name_functions_once();
    programs_keep_function_names_apart();
    programs_are_rooted();
    names_of_programs_separate();
    no_rival_of_a_program_uses_fewer();
    programs_get_least_names();
}

#[test]
fn laws_hold_of_joined_modules() {
    joining_moves_places();
    bundles_keep_bindings();
    bundles_keep_private_names();
    bundles_have_no_fault();
    modules_share_no_binding();
}
