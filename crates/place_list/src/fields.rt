//! What holds in a field of a node, and inside a node.

ghost use Rattle.std.specs.Prelude.{◌≡◌};
ghost use Rattle.place_list.specs.TableViews.{around_view};
ghost use Rattle.place_list.specs.TableWalk as spec;
ghost use Rattle.tree_nodes.specs.Rows.{column_of};
ghost use Rattle.tree_nodes.specs.Tree.{alone, part};
ghost use Rattle.tree_nodes.specs.Views.{part_of};
ghost use Rattle.tree_places.specs.Places as places;

use crate::setting::{ScopeKind, Setting, Value};
use tree_nodes::roles::{empty_at, role_at};
use tree_nodes::{Column, Field, FieldList, Kind, Mark, Mode, Node, Opens};

// A node, from which the settings of its fields follow.
#[derive(Clone, Copy)]
pub(crate) struct Around<'t> {
    // What holds around it, and in the scope that it opens.
    pub outside: Setting,
    pub inside: Setting,
    pub fields: &'t FieldList,
    pub number: u32,
    // Which scope a function that is its value opens.
    pub value_scope: ScopeKind,
}

#[tactic(auto, unfolding(tree_places::specs::Places::naming_value, crate::specs::TableWalk::value_from))]
fn naming_value(node: &Node) -> Value
    ensures { result ≡ spec.value_from (places.naming_value (alone node.now)) }
{
    match node.kind {
        Kind::ArrowFunctionExpression => Value::AnonymousFunction,
        Kind::FunctionExpression => {
            if empty_at(&node.fields, 0) {
                Value::AnonymousFunction
            } else {
                Value::OtherValue
            }
        }
        Kind::ClassExpression => {
            if empty_at(&node.fields, 0) {
                Value::AnonymousClass
            } else {
                Value::OtherValue
            }
        }
        _ => Value::OtherValue,
    }
}

#[tactic(auto, unfolding(tree_places::specs::Places::naming_value, crate::specs::TableWalk::value_from))]
fn naming_value_in(field: &Field) -> Value
    ensures { result ≡ spec.value_from (places.naming_value (part_of field.now)) }
{
    match field {
        Field::Child(node) => naming_value(node),
        _ => Value::OtherValue,
    }
}

// The value that the i-th field is.
fn naming_value_at(fields: &FieldList, i: u8) -> Value
    ensures { result ≡ spec.value_from (places.naming_value (part fields.now i)) }
{
    match fields.get(i as usize) {
        Some(field) => naming_value_in(field),
        None => Value::OtherValue,
    }
}

#[tactic(auto, unfolding(crate::specs::TableWalk::next_head))]
fn next_head(opened: Option<u32>, next: u32, outer: Option<u32>) -> Option<u32>
    ensures { result ≡ spec.next_head opened next outer }
{
    match opened {
        Some(_) => Some(next),
        None => outer,
    }
}

#[tactic(auto, unfolding(crate::specs::TableWalk::with_mark))]
fn with_mark(
    mark: Mark,
    fields: &FieldList,
    number: u32,
    opened: Option<u32>,
    next: u32,
    setting: Setting,
) -> Setting
    ensures { result ≡ spec.with_mark mark fields.now number opened next setting }
{
    match mark {
        Mark::Usual => setting,
        Mark::Body => Setting {
            bare: true,
            ..setting
        },
        Mark::Head => {
            let head = next_head(opened, next, setting.head);
            Setting { head, ..setting }
        }
        Mark::Exported => Setting {
            exported: true,
            ..setting
        },
        Mark::Valued(i) => {
            let value = naming_value_at(fields, i);
            Setting { value, ..setting }
        }
        Mark::Declarator(i) => {
            let value = naming_value_at(fields, i);
            Setting {
                value,
                declarator: Some(number),
                in_rest: false,
                ..setting
            }
        }
        Mark::Rest => Setting {
            in_rest: true,
            ..setting
        },
    }
}

#[tactic(auto, unfolding(crate::specs::TableWalk::pattern_on))]
fn pattern_on(mode: Mode, declarator: Option<u32>) -> Option<u32>
    ensures { result ≡ spec.pattern_on mode declarator }
{
    match mode {
        Mode::Same | Mode::Leaves => declarator,
        _ => None,
    }
}

// What holds on one side of a node: in the scope that it opens, or around it.
#[tactic(auto, unfolding(crate::specs::TableWalk::side))]
pub(crate) fn side(inside: bool, around: &Around<'_>) -> Setting
    ensures { result ≡ spec.side inside (around_view around.now) }
{
    if inside {
        around.inside
    } else {
        around.outside
    }
}

// What holds in a field, if the next head has this number.
#[tactic(auto, unfolding(crate::specs::TableWalk::at_field, crate::specs::TableWalk::field_setting))]
pub(crate) fn at_field(column: &Column, around: &Around<'_>, next: u32) -> Setting
    ensures { result ≡ spec.at_field (column_of column.now) (around_view around.now) next }
{
    let here = side(column.inside, around);
    let role = role_at(column.mode, around.outside.role, around.fields);
    let declarator = pattern_on(column.mode, here.declarator);
    let plain = Setting {
        role,
        bare: false,
        value: Value::NoValue,
        declarator,
        ..here
    };
    with_mark(
        column.mark,
        around.fields,
        around.number,
        around.inside.scope,
        next,
        plain,
    )
}

// What holds inside a node, if so many scopes and class bodies come before it.
#[tactic(auto, unfolding(crate::specs::TableWalk::opened))]
pub(crate) fn opened(opens: Opens, scopes: u32, class_bodies: u32, setting: Setting) -> Setting
    ensures { result ≡ spec.opened opens scopes class_bodies setting }
{
    match opens {
        Opens::Block | Opens::WithBody => Setting {
            scope: Some(scopes),
            ..setting
        },
        Opens::BareBlock => {
            if setting.bare {
                setting
            } else {
                Setting {
                    scope: Some(scopes),
                    ..setting
                }
            }
        }
        Opens::Hoisting => Setting {
            scope: Some(scopes),
            var_scope: Some(scopes),
            ..setting
        },
        Opens::ClassMembers => Setting {
            class_body: Some(class_bodies),
            ..setting
        },
        Opens::Nothing | Opens::NameHere | Opens::PrivateNameHere => setting,
    }
}
