//! A program: a tree that the reader gives for some JSON value.

ghost use Rattle.std.specs.Prelude.{◌≡◌, ◌↔◌, IsTrue};

use std::marker::Model;
use tree_nodes::Node;
use tree_nodes::roles::word_at;

/// What a program's source is.
#[derive(Clone, Copy, Debug, PartialEq, Eq)]
pub enum SourceType {
    Script,
    Module,
    /// A script whose code lies in a function.
    CommonJs,
}

impl SourceType {
    /// Whether it is a module.
    pub fn is_module(self) -> bool
        ensures { IsTrue result ↔ (self ≡ SourceType.Module) }
    {
        matches!(self, SourceType::Module)
    }

    /// Whether it is a CommonJS module.
    pub fn is_commonjs(self) -> bool
        ensures { IsTrue result ↔ (self ≡ SourceType.CommonJs) }
    {
        matches!(self, SourceType::CommonJs)
    }
}

/// A tree that is a program, of fewer than 2^30 nodes, with each node where it may stand and each text
/// of at most 4,294,967,295 bytes.
#[derive(Drop)]
pub struct Program {
    root: Node,
}

impl Model for Program {
    ghost use Rattle.tree_nodes.specs.Tree.{Tree};
    ghost use Rattle.tree_nodes.specs.TreeCode.{coded_tree};

    ghost Value = { Tree };

    ghost coded = { coded_tree };

    ghost use Rattle.tree_core.specs.Program.{IsProgram};

    ghost view = { λ p. p.root };

    ghost invariant = { λ p. IsProgram p.root };
}

impl Program {
    ghost use Rattle.std.specs.Prelude.{◌<◌, ◌^◌};
    ghost use Rattle.tree_core.specs.LongestText.{longest_text};
    ghost use Rattle.tree_core.specs.NodeCount.{node_count};
    ghost use Rattle.tree_core.specs.Program.{IsProgram, source_type_of};

    /// The program of this root.
    pub fn from_root(root: Node) -> Program
        requires { IsProgram root }
        ensures { result ≡ root }
    {
        Program { root }
    }

    /// The node of kind `Program`, in which all others lie, fewer than 2^30 with it. The texts in it
    /// have at most 4,294,967,295 bytes, and so do the bytes of WTF-8 of its code units.
    pub fn root(&self) -> &Node
        ensures root { result.now ≡ self.now }
        ensures program { IsProgram self.now }
        ensures few { node_count self.now < 2 ^ 30 }
        ensures texts { longest_text self.now.fields < 2 ^ 32 }
    {
        &self.root
    }

    /// The node that `root` lends, in place of the program.
    pub fn into_root(self) -> Node
        ensures root { result ≡ self }
        ensures program { IsProgram self }
    {
        self.root
    }

    /// What its source is.
    pub fn source_type(&self) -> SourceType
        ensures { result ≡ source_type_of self.now }
    {
        match word_at(&self.root.fields, 1) {
            0 => SourceType::Script,
            1 => SourceType::Module,
            _ => SourceType::CommonJs,
        }
    }
}
