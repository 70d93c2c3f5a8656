//! Findings but for their lines and columns.

ghost use Rattle.std.specs.Prelude.{◌≡◌, ◌++◌, OnOk};
ghost use Rattle.scope_report.specs.Found.{found_at, rules};
ghost use Rattle.scope_report.specs.Views.{Pushes, found_views};

use crate::finding::Rule;
use crate::verdict::Verdict;
use place_list::PlaceEntry;
use std::alloc::AllocError;

/// A rule, with name and start of a place that goes against it.
#[derive(Clone, Copy)]
pub struct FoundAt<'t> {
    pub rule: Rule,
    pub name: &'t str,
    pub start: u32,
}

/// Appends what is found at a place, in order. Err is want of memory.
pub fn push_verdict<'t>(
    found: &mut Vec<FoundAt<'t>>,
    place: &PlaceEntry<'t>,
    verdict: &Verdict,
) -> Result<(), AllocError>
    ensures { OnOk result (found_views found.new.items ≡ found_views found.old.items ++ found_at place.now.name.now place.now.start (rules verdict.now)) }
{
    let faults = verdict.faults;
    push_if(found, place, faults.redeclaration, Rule::Fault(1))?;
    push_if(found, place, faults.crossing, Rule::Fault(2))?;
    push_if(found, place, faults.sloppy_function, Rule::Fault(3))?;
    push_if(found, place, faults.undeclared, Rule::Fault(4))?;
    push_if(found, place, faults.reach, Rule::Fault(5))?;
    push_if(found, place, verdict.unused, Rule::Unused)?;
    push_if(found, place, verdict.unresolved, Rule::Unresolved)?;
    push_if(found, place, verdict.shadow, Rule::Shadow)?;
    Ok(())
}

// Appends a rule at a place, if it applies.
fn push_if<'t>(
    found: &mut Vec<FoundAt<'t>>,
    place: &PlaceEntry<'t>,
    applies: bool,
    rule: Rule,
) -> Result<(), AllocError>
    ensures { OnOk result (Pushes place.now.name.now place.now.start applies rule found.old.items found.new.items) }
{
    if applies {
        found.push(FoundAt {
            rule,
            name: place.name,
            start: place.start,
        })?;
    }
    Ok(())
}
