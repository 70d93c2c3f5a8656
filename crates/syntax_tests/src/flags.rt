//! Flags: of which constants each call answers yes.

mod kinds;
mod named;
mod references;
mod scopes;
mod symbols;

/// Whether a text of names with a space between two has a name among them.
pub fn is_listed(names: &str, name: &str) -> bool {
    for listed in names.split(' ') {
        if listed == name {
            return true;
        }
    }
    false
}

/// The names beside the first call that doesn't answer yes of a constant exactly where they have its name.
pub fn wrong_call<'a>(calls: &[(bool, &'a str)], name: &str) -> Option<&'a str> {
    for (answer, names) in calls {
        if *answer != is_listed(names, name) {
            return Some(names);
        }
    }
    None
}
