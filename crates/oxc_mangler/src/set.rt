//! Names that are set in an analysis.

ghost use Rattle.std.specs.Prelude.{◌≡◌, ◌≤◌, ◌<◌, ℕ, None, get_or, length, nat_eq, if◌then◌else◌};
ghost use Rattle.scope_rules.specs.Bindings.{or_else, same_name};
ghost use Rattle.scope_rules.specs.Symbols.{symbols};
ghost use Rattle.tree_nodes.specs.Tree.{Parts};
ghost use Rattle.tree_semantic.specs.Semantics.{IsSemantic, IsSemanticOf, scoping_of};
ghost use Rattle.tree_symbols.specs.Scopings.{name_set, places_of};

use oxc_data_structures::inline_string::InlineString;
use syntax_sem::symbol::SymbolId;
use tree_semantic::Semantic;

// Gives each symbol the name that stands here by its number, and each that has none here its name in the tree.
// It takes no memory.
pub(crate) fn set_names(semantic: &mut Semantic<'_>, names: &[Option<InlineString<15, u8>>])
    requires semantic { IsSemantic semantic.old }
    requires few { length names.now ≤ length (symbols same_name (places_of (scoping_of semantic.old))) }
    ensures same { (t : Parts) → IsSemanticOf t semantic.old → IsSemanticOf t semantic.new }
    ensures names { (k : ℕ) → name_set (scoping_of semantic.new) k ≡ get_or names.now k None }
{
    semantic.reset_symbol_names();
    for k in 0..names.len() {
        set_name(semantic, k, name_of(names, k));
    }
}

// The name of the symbol k, if it has one here.
fn name_of(names: &[Option<InlineString<15, u8>>], k: usize) -> Option<InlineString<15, u8>>
    requires { k < length names.now }
    ensures { result ≡ get_or names.now k None }
{
    names[k]
}

// Gives the symbol k this name, if it is one.
fn set_name(semantic: &mut Semantic<'_>, k: usize, name: Option<InlineString<15, u8>>)
    requires semantic { IsSemantic semantic.old }
    requires symbol { k < length (symbols same_name (places_of (scoping_of semantic.old))) }
    ensures semantic { IsSemantic semantic.new }
    ensures same { (t : Parts) → IsSemanticOf t semantic.old → IsSemanticOf t semantic.new }
    ensures names { (j : ℕ) → name_set (scoping_of semantic.new) j ≡ (if nat_eq j k then or_else name (name_set (scoping_of semantic.old) j) else name_set (scoping_of semantic.old) j) }
{
    if let Some(name) = name {
        let ids = [SymbolId::from_usize(k)];
        semantic.set_symbol_names(&ids, name);
    }
}
