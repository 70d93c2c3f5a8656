//! Nodes, which contracts see as trees.

ghost use Rattle.std.specs.Prelude.{◌≡◌, IfOk, option_map, option_copied, slice_get, IfSome, ◌<◌};

use crate::kind::Kind;
use crate::text::TreeText;
use oxc_str::JSText;
use std::alloc::{AllocError, Global};
use std::marker::Model;

/// A node of the tree. Contracts see it as a `Tree`, with its fields as a run of parts.
#[cycle(node)]
#[derive(Drop)]
pub struct Node {
    pub kind: Kind,
    /// Where its text begins in the source: 0 where the ESTree says nothing.
    pub start: u32,
    /// Where its text ends.
    pub end: u32,
    /// Its fields, in the order of its row's columns.
    pub fields: FieldList,
}

/// The fields of a node.
#[cycle(node)]
#[derive(Drop)]
pub struct FieldList {
    items: Vec<Field>,
}

/// What a field of a node holds.
#[cycle(node)]
#[derive(Drop)]
pub enum Field {
    /// Null, or nothing where the field may be missing.
    Empty,
    Flag(bool),
    /// One of the words that the field may be, as `kind` and `operator` are: its number in the
    /// word list of the column.
    Word(u8),
    /// A text of Unicode characters, as a name.
    Text(TreeText),
    /// The value of a string: code units, of which a surrogate may stand alone.
    Str(JSText),
    /// The value of a number that is whole and below 2^64.
    Whole(u64),
    Child(Box<Node>),
    List(NodeList),
}

/// A list of nodes, in which None is a hole, as in `[a, , b]`.
#[cycle(node)]
#[derive(Drop)]
pub struct NodeList {
    items: Vec<Option<Node>>,
}

impl Model for Node {
    ghost use Rattle.tree_nodes.specs.Tree.{Tree};
    ghost use Rattle.tree_nodes.specs.Look.{tree_size};
    ghost use Rattle.tree_nodes.specs.TreeCode.{coded_tree};

    ghost Value = { Tree };

    ghost coded = { coded_tree };

    ghost view = { λ n. record { kind = n.kind; start = n.start; stop = n.end; fields = n.fields } };

    ghost size = { tree_size };

    ghost use Rattle.std.proofs.Common.{arith};

    ghost size_decreases = { λ a h. Prim.grind arith };
}

impl Model for FieldList {
    ghost use Rattle.tree_nodes.specs.Tree.{Parts};
    ghost use Rattle.tree_nodes.specs.Look.{parts_size};
    ghost use Rattle.tree_nodes.specs.TreeCode.{coded_parts};

    ghost Value = { Parts };

    ghost coded = { coded_parts };

    ghost use Rattle.tree_nodes.specs.Views.{parts_of};

    ghost view = { λ l. parts_of l.items.items };

    ghost size = { parts_size };

    ghost use Rattle.std.proofs.Common.{arith};
    ghost use Rattle.tree_nodes.specs.TreeFalls.{parts_fall};

    ghost size_decreases = { λ a h. Prim.omega (arith, parts_fall a.items.items) };
}

impl Model for NodeList {
    ghost use Rattle.tree_nodes.specs.Tree.{Parts};
    ghost use Rattle.tree_nodes.specs.Look.{parts_size};
    ghost use Rattle.tree_nodes.specs.TreeCode.{coded_parts};

    ghost Value = { Parts };

    ghost coded = { coded_parts };

    ghost use Rattle.tree_nodes.specs.Views.{items_of};

    ghost view = { λ l. items_of l.items.items };

    ghost size = { parts_size };

    ghost use Rattle.std.proofs.Common.{arith};
    ghost use Rattle.tree_nodes.specs.TreeFalls.{items_fall};

    ghost size_decreases = { λ a h. Prim.omega (arith, items_fall a.items.items) };
}

// `items.get(i)`, with its answer as one equation.
fn at<T>(items: &[T], i: usize) -> Option<&T>
    ensures { option_copied result ≡ slice_get items.now i }
{
    items.get(i)
}

impl FieldList {
    ghost use Rattle.tree_nodes.specs.Look.{part_size, parts_size, parts_len, part_at};
    ghost use Rattle.tree_nodes.specs.Views.{part_of, parts_of};

    /// A list of these fields.
    pub fn from_vec(fields: Vec<Field>) -> FieldList
        ensures { result ≡ parts_of fields.items }
    {
        FieldList { items: fields }
    }

    /// The fields, in place of the list.
    pub fn into_vec(self) -> Vec<Field>
        ensures { parts_of result.items ≡ self }
    {
        self.items
    }

    /// How many fields there are.
    pub fn len(&self) -> usize
        ensures { result ≡ parts_len self.now }
    {
        self.items.as_slice().len()
    }

    /// The i-th field. None past the end.
    pub fn get(&self, i: usize) -> Option<&Field>
        ensures part { option_map (λ f. part_of f.now) result ≡ part_at self.now i }
        ensures smaller { IfSome result (λ f. part_size (part_of f.now) < parts_size self.now) }
    {
        at(self.items.as_slice(), i)
    }
}

impl NodeList {
    ghost use Rattle.tree_nodes.specs.Look.{parts_size, parts_len, item_at, item_size, are_items};
    ghost use Rattle.tree_nodes.specs.Views.{items_of};
    ghost use Rattle.std.specs.Prelude.{true};

    /// A list of these nodes and holes.
    pub fn from_vec(items: Vec<Option<Node>>) -> NodeList
        ensures { result ≡ items_of items.items }
    {
        NodeList { items }
    }

    /// The nodes and holes, in place of the list.
    pub fn into_vec(self) -> Vec<Option<Node>>
        ensures { items_of result.items ≡ self }
    {
        self.items
    }

    /// How many nodes and holes there are.
    pub fn len(&self) -> usize
        ensures len { result ≡ parts_len self.now }
        ensures shaped { are_items self.now ≡ true }
    {
        self.items.as_slice().len()
    }

    /// The i-th node or hole. None past the end.
    pub fn get(&self, i: usize) -> Option<&Option<Node>>
        ensures item { option_copied result ≡ item_at self.now i }
        ensures smaller { IfSome result (λ t. item_size t.now < parts_size self.now) }
    {
        at(self.items.as_slice(), i)
    }
}

impl Node {
    /// A copy of the node and of all below it. Err is want of memory.
    #[cycle(copy)]
    pub fn try_clone(&self, alloc: Global) -> Result<Node, AllocError>
        ensures { IfOk result (λ n. n ≡ self.now) }
    {
        Ok(Node {
            kind: self.kind,
            start: self.start,
            end: self.end,
            fields: self.fields.try_clone(alloc)?,
        })
    }
}

impl FieldList {
    #[cycle(copy)]
    fn try_clone(&self, alloc: Global) -> Result<FieldList, AllocError>
        ensures { IfOk result (λ l. l ≡ self.now) }
    {
        let mut copies = Vec::with_capacity(alloc, self.items.len())?;
        for field in &self.items {
            copies.push(field.try_clone(alloc)?)?;
        }
        Ok(FieldList { items: copies })
    }
}

impl NodeList {
    #[cycle(copy)]
    fn try_clone(&self, alloc: Global) -> Result<NodeList, AllocError>
        ensures { IfOk result (λ l. l ≡ self.now) }
    {
        let mut copies = Vec::with_capacity(alloc, self.items.len())?;
        for item in &self.items {
            let copy = match item {
                Some(node) => Some(node.try_clone(alloc)?),
                None => None,
            };
            copies.push(copy)?;
        }
        Ok(NodeList { items: copies })
    }
}

impl Field {
    ghost use Rattle.tree_nodes.specs.Views.{part_of};

    /// A copy of the field and of all below it. Err is want of memory.
    #[cycle(copy)]
    pub fn try_clone(&self, alloc: Global) -> Result<Field, AllocError>
        ensures { IfOk result (λ f. part_of f ≡ part_of self.now) }
    {
        match self {
            Field::Empty => Ok(Field::Empty),
            Field::Flag(b) => Ok(Field::Flag(*b)),
            Field::Word(w) => Ok(Field::Word(*w)),
            Field::Text(t) => Ok(Field::Text(t.try_clone(alloc)?)),
            Field::Str(units) => Ok(Field::Str(units.try_clone(alloc)?)),
            Field::Whole(n) => Ok(Field::Whole(*n)),
            Field::Child(node) => Ok(Field::Child(Box::new(alloc, node.try_clone(alloc)?)?)),
            Field::List(nodes) => Ok(Field::List(nodes.try_clone(alloc)?)),
        }
    }
}
