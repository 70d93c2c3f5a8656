//! The bindings and the faults of a whole tree.

ghost use Rattle.std.specs.Prelude.{◌≡◌, ◌<◌, IfOk, IfSome, Some, is_some, length, map, slice_get, take};
ghost use Rattle.place_list.specs.Bounds.{IsBounded};
ghost use Rattle.place_list.specs.Names.{AreNumbered};
ghost use Rattle.place_list.specs.TableViews.{list_view, places_in, scopes_in, withs_in};
ghost use Rattle.scope_rules.specs.Bindings as rules;
ghost use Rattle.scope_rules.specs.Bindings.{same_name};
ghost use Rattle.scope_rules.specs.Evals.{contains};
ghost use Rattle.scope_rules.specs.Faults as faulty;
ghost use Rattle.scope_tables.specs.FaultsOf.{AreFaults, faults_of};
ghost use Rattle.scope_tables.specs.Views.{nodes_of};
ghost use Rattle.scope_tables.specs.WholeTree.{AreTables};
ghost use Rattle.tree_nodes.specs.Tree.{alone};
ghost use Rattle.tree_places.specs.Laws.{RiseFrom};
ghost use Rattle.tree_places.specs.Places as spec;

use crate::faults::Faults;
use crate::node_index::index_of_node;
use crate::resolve::shadower;
use crate::resolved::{Resolved, resolve};
use place_list::{PlaceList, list_places};
use std::alloc::{AllocError, Global};
use tree_nodes::Node;

/// The places of a tree, what each is bound to, and which faults its scopes have.
#[derive(Drop)]
pub struct ScopeTables<'t> {
    /// The places with their scopes, class bodies and heads.
    pub list: PlaceList<'t>,
    /// What they declare, their bindings and faults.
    pub resolved: Resolved,
}

impl<'t> ScopeTables<'t> {
    /// The tables of a tree. Err is want of memory, or of numbers.
    pub fn build(alloc: Global, root: &'t Node) -> Result<Self, AllocError>
        ensures places { IfOk result (λ t. places_in t.list ≡ spec.places (alone root.now)) }
        ensures scopes { IfOk result (λ t. scopes_in t.list ≡ spec.scopes (alone root.now)) }
        ensures withs { IfOk result (λ t. withs_in t.list ≡ spec.withs (alone root.now)) }
        ensures tables { IfOk result (λ t. AreTables t) }
    {
        let list = list_places(alloc, root)?;
        let tables = ScopeTables::from_list(alloc, list)?;
        Ok(tables)
    }

    /// The tables of a list of places, which they keep. Err is want of memory.
    pub fn from_list(alloc: Global, list: PlaceList<'t>) -> Result<Self, AllocError>
        requires bounded { IsBounded (list_view list) }
        requires numbered { AreNumbered list.places.items }
        requires rising { RiseFrom 0 (nodes_of list.places.items) }
        ensures list { IfOk result (λ t. t.list ≡ list.entry) }
        ensures tables { IfOk result (λ t. AreTables t) }
    {
        let resolved = resolve(alloc, &list, list.places.as_slice())?;
        Ok(ScopeTables { list, resolved })
    }

    /// Of each place its binding, by the number of its node.
    pub fn bindings(&self) -> &[Option<u32>]
        requires { AreTables self.now }
        ensures { result.now ≡ rules.bindings same_name (places_in self.now.list) }
    {
        self.resolved.bindings.as_slice()
    }

    /// The index of the place that has this node, from 0; None where none has it. A binding has the number of such
    /// a node.
    pub fn index_of_node(&self, node: u32) -> Option<usize>
        requires { AreTables self.now }
        ensures found { IfSome result (λ i. slice_get (map rules.node (places_in self.now.list)) i ≡ Some node) }
        ensures exactly { is_some result ≡ contains (map rules.node (places_in self.now.list)) node }
    {
        index_of_node(self.list.places.as_slice(), node)
    }

    /// The shadower of the i-th place, from 0: of a function-name the binding of what its home declares
    /// under its name otherwise.
    pub fn shadower(&self, i: usize) -> Option<u32>
        requires tables { AreTables self.now }
        requires index { i < length self.now.list.places.items }
        ensures { IfSome (slice_get (places_in self.now.list) i) (λ p. result
            ≡ rules.shadower same_name (places_in self.now.list) p) }
    {
        let place = self.list.places[i];
        shadower(&self.list, &self.resolved.declarations, &place)
    }

    /// Which faults the scopes have.
    pub fn faults(&self) -> Faults
        requires { AreTables self.now }
        ensures { AreFaults (places_in self.now.list) result }
    {
        self.resolved.faults
    }

    /// Which faults the i-th place has, from 0: it is the later of two declarations that declares a name again.
    pub fn faults_at(&self, i: usize) -> Faults
        requires tables { AreTables self.now }
        requires index { i < length self.now.list.places.items }
        ensures { IfSome (slice_get (places_in self.now.list) i) (λ p. result
            ≡ faults_of (places_in self.now.list) (take i (places_in self.now.list)) p) }
    {
        Faults::nth(self.resolved.place_faults.as_slice(), i)
    }

    /// Whether they have a fault.
    pub fn has_fault(&self) -> bool
        requires { AreTables self.now }
        ensures { result ≡ faulty.has_fault same_name (places_in self.now.list) }
    {
        self.resolved.faults.any()
    }
}
