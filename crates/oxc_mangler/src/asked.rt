//! What a mangling is asked to do.

ghost use Rattle.std.specs.Prelude.{◌≡◌, map};
ghost use Rattle.name_rules.specs.Options as rules;
ghost use Rattle.mangle_options.specs.Settings.{reserved_in};
ghost use Rattle.oxc_mangler.specs.Asked.{asked, asked_with, reserved_by};
ghost use Rattle.place_list.specs.Nodes.{nested_nodes};
ghost use Rattle.tree_nodes.specs.Tree.{Parts, Tree, alone};
ghost use Rattle.tree_semantic.specs.Nodes.{nodes_in, told};

use mangle_options::MangleOptions;
use std::alloc::Global;
use syntax_sem::node::NodeId;
use tree_nodes::Node;
use tree_nodes::roles::word_at;
use tree_semantic::AstNodes;

// The options that are given, or else the usual ones.
pub(crate) fn options_or_usual(alloc: Global, options: Option<MangleOptions>) -> MangleOptions
    ensures asked { (t : Parts) → asked_with result t ≡ asked options t }
    ensures reserved { reserved_in result ≡ reserved_by options }
{
    match options {
        Some(options) => options,
        None => MangleOptions::new(alloc),
    }
}

// Whether bindings of the root are renamed: as asked, else in all but scripts, since those share their root with
// others.
#[tactic(auto, unfolding(name_rules::specs::Options::renames_root))]
pub(crate) fn renames_root(asked: Option<bool>, root: &Node) -> bool
    ensures { result ≡ rules.renames_root asked (alone root.now) }
{
    match asked {
        Some(asked) => asked,
        None => word_at(&root.fields, 1) != 0,
    }
}

// The same of the tree whose nodes these are. No tree has none.
pub(crate) fn renames_first(asked: Option<bool>, nodes: &AstNodes<'_>) -> bool
    ensures { (t : Tree) → nodes_in nodes.now ≡ map told (nested_nodes (alone t)) → result ≡ rules.renames_root asked (alone t) }
{
    if nodes.len() == 0 {
        return true;
    }
    renames_root(asked, nodes.node(NodeId::from_usize(0)))
}
