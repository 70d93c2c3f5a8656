//! Names that are set for symbols.

ghost use Rattle.std.specs.Prelude.{◌≡◌, ◌≤◌, ◌<◌, ℕ, None, get_or, length, nat_eq, if◌then◌else◌};
ghost use Rattle.scope_rules.specs.Bindings.{or_else, same_name};
ghost use Rattle.scope_rules.specs.Symbols.{symbols};
ghost use Rattle.tree_symbols.specs.Scopings.{IsScoping, name_set, places_of, under_names};

use oxc_data_structures::inline_string::InlineString;
use syntax_sem::symbol::SymbolId;
use tree_symbols::Scoping;

/// Gives each symbol the name that stands here by its number, and each that has none here its name in the tree.
/// It takes no memory.
pub fn set_names(scoping: &mut Scoping<'_>, names: &[Option<InlineString<15, u8>>])
    requires scoping { IsScoping scoping.old }
    requires few { length names.now ≤ length (symbols same_name (places_of scoping.old)) }
    ensures scoping { IsScoping scoping.new }
    ensures same { scoping.new ≡ under_names scoping.old scoping.new.names }
    ensures names { (k : ℕ) → name_set scoping.new k ≡ get_or names.now k None }
{
    scoping.reset_symbol_names();
    for k in 0..names.len() {
        set_name(scoping, k, name_of(names, k));
    }
}

// The name of the symbol k, if it has one here.
fn name_of(names: &[Option<InlineString<15, u8>>], k: usize) -> Option<InlineString<15, u8>>
    requires { k < length names.now }
    ensures { result ≡ get_or names.now k None }
{
    names[k]
}

// Gives the symbol k this name, if it is one.
fn set_name(scoping: &mut Scoping<'_>, k: usize, name: Option<InlineString<15, u8>>)
    requires scoping { IsScoping scoping.old }
    requires symbol { k < length (symbols same_name (places_of scoping.old)) }
    ensures scoping { IsScoping scoping.new }
    ensures same { scoping.new ≡ under_names scoping.old scoping.new.names }
    ensures names { (j : ℕ) → name_set scoping.new j ≡ (if nat_eq j k then or_else name (name_set scoping.old j) else name_set scoping.old j) }
{
    if let Some(name) = name {
        let ids = [SymbolId::from_usize(k)];
        scoping.set_symbol_names(&ids, &name);
    }
}
