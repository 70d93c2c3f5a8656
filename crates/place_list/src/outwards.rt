//! What is read from the tables: a place by its index, what lies next outwards of a scope, a class body or
//! a head, and which scope lies inside which.

ghost use Rattle.std.specs.Prelude.{◌≡◌, ◌∷◌, ◌<◌, length, slice_get, IfSome, Some};
ghost use Rattle.place_list.specs.Bounds.{IsBelow, IsBounded, IsKnown};
ghost use Rattle.place_list.specs.Outwards as spec;
ghost use Rattle.place_list.specs.Outwards.{HaveVarScope};
ghost use Rattle.place_list.specs.TableViews.{classes_at, heads_at, list_view, nested_node_in, nested_nodes_in, place_in, places_in, scope_at, scope_node_in, scope_nodes_in};
ghost use Rattle.tree_places.specs.Scopes as scopes;

use crate::tables::{HeadEntry, NodeEntry, PlaceEntry, PlaceList, ScopeEntry};

/// Whether both numbers are the same, or both stand for what lies outside all scopes.
#[tactic(auto, unfolding(crate::specs::Outwards::same_number))]
pub fn same_number(a: Option<u32>, b: Option<u32>) -> bool
    ensures { result ≡ spec.same_number a b }
{
    match a {
        Some(a) => is_number(a, b),
        None => b.is_none(),
    }
}

#[tactic(auto, unfolding(crate::specs::Outwards::same_number))]
fn is_number(a: u32, b: Option<u32>) -> bool
    ensures { result ≡ spec.same_number (Some a) b }
{
    match b {
        Some(b) => a == b,
        None => false,
    }
}

impl<'t> PlaceList<'t> {
    /// The i-th place, from 0.
    pub fn place(&self, i: usize) -> PlaceEntry<'t>
        requires bounded { IsBounded (list_view self.now) }
        requires index { i < length self.now.places.items }
        ensures stands { slice_get (places_in self.now) i ≡ Some (place_in self.now result) }
        ensures known { IsKnown (list_view self.now) result.setting }
    {
        self.places[i]
    }

    /// The scope around a scope.
    pub fn parent(&self, scope: u32) -> Option<u32>
        requires bounded { IsBounded (list_view self.now) }
        requires scope { scope < length self.now.scopes.items }
        ensures outwards { scope_at self.now (Some scope) ≡ scope ∷ scope_at self.now result }
        ensures below { IsBelow scope result }
    {
        self.scopes[scope as usize].parent
    }

    /// What is told of a scope: its var scope, the node that opens it, its kind, whether its code is strict.
    pub fn scope(&self, scope: u32) -> ScopeEntry
        requires scope { scope < length self.now.scopes.items }
        ensures { slice_get (scope_nodes_in self.now) scope ≡ Some (scope_node_in self.now result) }
    {
        self.scopes[scope as usize]
    }

    /// The nearest scope, from this one outwards, that a `var` may declare in.
    pub fn var_scope(&self, scope: u32) -> Option<u32>
        requires bounded { IsBounded (list_view self.now) }
        requires scope { scope < length self.now.scopes.items }
        ensures places { HaveVarScope self.now (Some scope) result }
        ensures below { IsBelow (length self.now.scopes.items) result }
    {
        self.scopes[scope as usize].var_scope
    }

    /// A node that is listed, with the node around it and the scope in which it stands.
    pub fn node(&self, node: u32) -> NodeEntry<'t>
        requires node { node < length self.now.node_entries.items }
        ensures { slice_get (nested_nodes_in self.now) node ≡ Some (nested_node_in self.now result) }
    {
        self.node_entries[node as usize]
    }

    /// The class body around a class body.
    pub fn outer_class(&self, class_body: u32) -> Option<u32>
        requires bounded { IsBounded (list_view self.now) }
        requires class_body { class_body < length self.now.class_bodies.items }
        ensures outwards { classes_at self.now (Some class_body) ≡ class_body ∷ classes_at self.now result }
        ensures below { IsBelow class_body result }
    {
        self.class_bodies[class_body as usize].parent
    }

    /// The scope of a head, and the head around it.
    pub fn head(&self, head: u32) -> HeadEntry
        requires bounded { IsBounded (list_view self.now) }
        requires head { head < length self.now.heads.items }
        ensures outwards { heads_at self.now (Some head) ≡ result.scope ∷ heads_at self.now result.parent }
        ensures below { IsBelow head result.parent }
        ensures scope { result.scope < length self.now.scopes.items }
    {
        self.heads[head as usize]
    }

    /// Whether both are the same scope, or both lie outside all scopes.
    pub fn is_same_scope(&self, a: Option<u32>, b: Option<u32>) -> bool
        requires a { IsBelow (length self.now.scopes.items) a }
        requires b { IsBelow (length self.now.scopes.items) b }
        ensures { result ≡ scopes.same_scope (scope_at self.now a) (scope_at self.now b) }
    {
        same_number(a, b)
    }

    /// Whether the first scope is the second, or lies inside it.
    pub fn is_inside(&self, inner: Option<u32>, outer: Option<u32>) -> bool
        requires bounded { IsBounded (list_view self.now) }
        requires inner { IsBelow (length self.now.scopes.items) inner }
        requires outer { IsBelow (length self.now.scopes.items) outer }
        ensures { result ≡ scopes.is_inside (scope_at self.now inner) (scope_at self.now outer) }
    {
        let mut at = inner;
        while let Some(scope) = at {
            if is_number(scope, outer) {
                return true;
            }
            at = self.parent(scope);
        }
        same_number(None, outer)
    }

    /// Whether the scope of the i-th place is one that a `var` may declare in.
    pub fn lies_in_var_scope(&self, i: usize) -> bool
        requires bounded { IsBounded (list_view self.now) }
        requires index { i < length self.now.places.items }
        ensures { IfSome (slice_get (places_in self.now) i) (λ p. result
            ≡ scopes.same_scope p.site.setting.scope p.site.setting.var_scope) }
    {
        let setting = self.place(i).setting;
        self.is_same_scope(setting.scope, setting.var_scope)
    }
}
