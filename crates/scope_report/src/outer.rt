//! The scope around a scope.

ghost use Rattle.std.specs.Prelude.{◌≡◌};
ghost use Rattle.name_rules.specs.Kept as kept;
ghost use Rattle.place_list.specs.Bounds.{IsBounded};
ghost use Rattle.place_list.specs.TableViews.{list_view, scope_at};
ghost use Rattle.scope_report.specs.Rules.{outside};
ghost use Rattle.scope_tables.specs.Views.{IsScope};

use place_list::PlaceList;

/// The scope around a scope. None lies outside all scopes.
pub fn outer_scope(list: &PlaceList<'_>, scope: Option<u32>) -> Option<u32>
    requires bounded { IsBounded (list_view list.now) }
    requires scope { IsScope list.now scope }
    ensures outside { scope_at list.now result ≡ outside (scope_at list.now scope) }
    ensures known { IsScope list.now result }
{
    match scope {
        Some(number) => list.parent(number),
        None => None,
    }
}

/// Whether it is the root, or lies outside all scopes.
pub fn is_root(list: &PlaceList<'_>, scope: Option<u32>) -> bool
    requires bounded { IsBounded (list_view list.now) }
    requires scope { IsScope list.now scope }
    ensures { result ≡ kept.is_root (scope_at list.now scope) }
{
    outer_scope(list, scope).is_none()
}
