//! The table of a tree's private names.

ghost use Rattle.std.specs.Prelude.{◌≡◌, ◌<◌, IfOk, IfSome, length, map, option_map, slice_get};
ghost use Rattle.name_rules.specs.PrivateNumbers as numbers;
ghost use Rattle.name_rules.specs.PrivateNumbers.{index_of};
ghost use Rattle.place_list.specs.Bounds.{IsBelow, IsBounded};
ghost use Rattle.place_list.specs.TableViews.{classes_at, list_view, places_in};
ghost use Rattle.scope_rules.specs.Bindings.{same_name};
ghost use Rattle.scope_rules.specs.Evals as evals;
ghost use Rattle.scope_rules.specs.Faults as faults;
ghost use Rattle.scope_rules.specs.PrivateNames as names;
ghost use Rattle.class_tables.specs.PrivateTables.{IsWhole, list_in};

use crate::bindings;
use crate::class_table::ClassTable;
use crate::counts::{closed_counts, count_around};
use crate::declared::declared_names;
use crate::open::open_classes;
use place_list::PlaceList;
use std::alloc::{AllocError, Global};

/// The private names of a tree by class body: what each class body declares, what each private name is bound
/// to, which classes are open to direct evals, and how many names lie around each.
#[derive(Drop)]
pub struct PrivateTable<'l, 't> {
    list: &'l PlaceList<'t>,
    tables: Vec<ClassTable<'t>>,
    open: Vec<bool>,
    counts: Vec<usize>,
}

impl<'l, 't> PrivateTable<'l, 't> {
    /// The table of these places. Err is want of memory, or of numbers: there are at most 2^32 - 1 places and
    /// 2^31 - 1 class bodies.
    pub fn new(alloc: Global, list: &'l PlaceList<'t>) -> Result<Self, AllocError>
        requires { IsBounded (list_view list.now) }
        ensures whole { IfOk result (λ t. IsWhole t) }
        ensures list { IfOk result (λ t. list_in t ≡ list.now) }
    {
        if list.places.as_slice().len() > 4_294_967_295
            || list.class_bodies.as_slice().len() > 2_147_483_647
        {
            return Err(AllocError);
        }
        let bodies = list.class_bodies.as_slice();
        let places = list.places.as_slice();
        let tables = declared_names(alloc, bodies, places)?;
        let open = open_classes(alloc, bodies, places)?;
        let counts = closed_counts(alloc, tables.as_slice(), bodies, open.as_slice())?;
        Ok(PrivateTable {
            list,
            tables,
            open,
            counts,
        })
    }

    /// The places that the table is of.
    pub fn list(&self) -> &'l PlaceList<'t>
        ensures { result.now ≡ list_in self.now }
    {
        self.list
    }

    /// The distinct private names that a class body declares, in the order of their first places.
    pub fn private_names(&self, class_body: u32) -> &[&'t str]
        requires whole { IsWhole self.now }
        requires class_body { class_body < length (list_in self.now).class_bodies.items }
        ensures { map (λ n. n.now) result.now ≡ names.private_names (places_in (list_in self.now)) class_body }
    {
        bindings::private_names(self.tables.as_slice(), class_body)
    }

    /// Whether a class body declares this private name.
    pub fn declares(&self, class_body: u32, name: &str) -> bool
        requires { IsWhole self.now }
        ensures { result ≡ names.is_among (names.private_names (places_in (list_in self.now)) class_body) name.now }
    {
        bindings::declares(self.tables.as_slice(), class_body, name)
    }

    /// The binding of the private name at the i-th place, if it is one and has one: the node of the place that
    /// declares it first.
    pub fn private_binding(&self, i: usize) -> Option<u32>
        requires whole { IsWhole self.now }
        requires index { i < length (list_in self.now).places.items }
        ensures { IfSome (slice_get (places_in (list_in self.now)) i) (λ p. result ≡ names.private_binding same_name (places_in (list_in self.now)) p) }
    {
        let place = self.list.place(i);
        bindings::private_binding(
            self.tables.as_slice(),
            self.list.class_bodies.as_slice(),
            &place,
        )
    }

    /// The nearest class body around the i-th place that declares a private name of its name.
    pub fn declaring_class(&self, i: usize) -> Option<u32>
        requires whole { IsWhole self.now }
        requires index { i < length (list_in self.now).places.items }
        ensures { IfSome (slice_get (places_in (list_in self.now)) i) (λ p. result ≡ names.declaring_class (places_in (list_in self.now)) p.name p.site.setting.classes) }
    {
        let place = self.list.place(i);
        bindings::declaring_class(
            self.tables.as_slice(),
            self.list.class_bodies.as_slice(),
            &place,
        )
    }

    /// Which of that class body's names, from 0, the name of the i-th place is.
    pub fn name_index(&self, i: usize) -> Option<u32>
        requires whole { IsWhole self.now }
        requires index { i < length (list_in self.now).places.items }
        ensures { IfSome (slice_get (places_in (list_in self.now)) i) (λ p. result ≡ option_map (λ c. index_of p.name (names.private_names (places_in (list_in self.now)) c)) (names.declaring_class (places_in (list_in self.now)) p.name p.site.setting.classes)) }
    {
        let place = self.list.place(i);
        bindings::name_index(
            self.tables.as_slice(),
            self.list.class_bodies.as_slice(),
            &place,
        )
    }

    /// Whether the i-th place is a private name that no class body around it declares.
    pub fn is_undeclared(&self, i: usize) -> bool
        requires whole { IsWhole self.now }
        requires index { i < length (list_in self.now).places.items }
        ensures { IfSome (slice_get (places_in (list_in self.now)) i) (λ p. result ≡ faults.is_undeclared same_name (places_in (list_in self.now)) p) }
    {
        let place = self.list.place(i);
        bindings::is_undeclared(
            self.tables.as_slice(),
            self.list.class_bodies.as_slice(),
            &place,
        )
    }

    /// Whether a private name is used that no class body around it declares.
    pub fn has_undeclared(&self) -> bool
        requires { IsWhole self.now }
        ensures { result ≡ faults.has_undeclared same_name (places_in (list_in self.now)) }
    {
        bindings::has_undeclared(
            self.tables.as_slice(),
            self.list.class_bodies.as_slice(),
            self.list.places.as_slice(),
        )
    }

    /// Whether a class body is open: a direct eval stands in it, at any depth.
    pub fn is_open(&self, class_body: u32) -> bool
        requires whole { IsWhole self.now }
        requires class_body { class_body < length (list_in self.now).class_bodies.items }
        ensures { result ≡ evals.is_open (places_in (list_in self.now)) class_body }
    {
        self.open[class_body as usize]
    }

    /// How many private names a class body and those around it declare, those of open classes aside. None lies
    /// outside all of them.
    pub fn closed_count(&self, class_body: Option<u32>) -> usize
        requires whole { IsWhole self.now }
        requires class_body { IsBelow (length (list_in self.now).class_bodies.items) class_body }
        ensures { result ≡ numbers.closed_count (places_in (list_in self.now)) (classes_at (list_in self.now) class_body) }
    {
        count_around(self.counts.as_slice(), class_body)
    }
}
