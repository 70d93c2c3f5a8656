//! What the laws on names say of programs, the trees that are read: laws, no code.
#![tactic(auto)]

mod laws;

pub use laws::{
    names_of_programs_separate, no_rival_of_a_program_uses_fewer, programs_are_rooted,
    programs_get_least_names, programs_keep_function_names_apart, programs_name_functions_once,
};
