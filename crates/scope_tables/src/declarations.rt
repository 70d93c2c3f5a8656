//! What each scope declares, by names.

ghost use Rattle.std.specs.Prelude.{◌≡◌, IfOk, Some};
ghost use Rattle.place_list.specs.Bounds.{IsBounded};
ghost use Rattle.place_list.specs.TableViews.{list_view, scope_at};
ghost use Rattle.scope_tables.specs.DeclarationsAt.{AreDeclarations, binder_at, plain_at, single_at};
ghost use Rattle.scope_tables.specs.Nearest.{nearest};
ghost use Rattle.scope_tables.specs.Views.{AllStand, IsScope};

use crate::firsts::first_declarations;
use crate::key::Key;
use crate::sites::Declaring;
use place_list::{PlaceEntry, PlaceList};
use std::alloc::{AllocError, Global};
use std::collections::BTreeMap;

/// By names in scopes: the first place that declares the name there, function-names aside; the
/// function-name there; and the first place beside which no other may declare it. Names are asked for by
/// their numbers.
#[derive(Drop)]
pub struct Declarations {
    plain: BTreeMap<Key, u32>,
    function_names: BTreeMap<Key, u32>,
    singles: BTreeMap<Key, u32>,
}

impl Declarations {
    /// What these places of the list declare. Err is want of memory.
    pub fn new(
        alloc: Global,
        list: &PlaceList<'_>,
        places: &[PlaceEntry<'_>],
    ) -> Result<Self, AllocError>
        requires { AllStand list.now places.now }
        ensures { IfOk result (λ d. AreDeclarations list.now places.now d) }
    {
        Ok(Declarations {
            plain: first_declarations(alloc, list, places, Declaring::Plainly)?,
            function_names: first_declarations(alloc, list, places, Declaring::AsFunctionName)?,
            singles: first_declarations(alloc, list, places, Declaring::Singly)?,
        })
    }

    /// The node of the first place that declares the name in this scope, function-names aside.
    pub fn plain_binder(&self, scope: Option<u32>, name: u32) -> Option<u32>
        ensures { result ≡ plain_at self.now scope name }
    {
        self.plain.get(&Key::new(scope, name)).copied()
    }

    /// The same, or else the function-name there.
    #[tactic(auto, unfolding(crate::specs::DeclarationsAt::binder_at, scope_rules::specs::Bindings::or_else))]
    pub fn binder(&self, scope: Option<u32>, name: u32) -> Option<u32>
        ensures { result ≡ binder_at self.now scope name }
    {
        match self.plain_binder(scope, name) {
            Some(node) => Some(node),
            None => self.function_names.get(&Key::new(scope, name)).copied(),
        }
    }

    /// Whether a place declares the name in this scope beside which no other may do so.
    pub fn is_single(&self, scope: Option<u32>, name: u32) -> bool
        ensures { result ≡ single_at self.now scope name }
    {
        self.singles.contains_key(&Key::new(scope, name))
    }

    /// The nearest answer of `binder` from a scope outwards.
    pub fn nearest_binder(&self, list: &PlaceList<'_>, scope: Option<u32>, name: u32) -> Option<u32>
        requires bounded { IsBounded (list_view list.now) }
        requires scope { IsScope list.now scope }
        ensures { result ≡ nearest (λ s. binder_at self.now (Some s) name) (scope_at list.now scope) }
    {
        let mut at = scope;
        while let Some(s) = at {
            let found = self.binder(at, name);
            if found.is_some() {
                return found;
            }
            at = list.parent(s);
        }
        None
    }
}
