//! The findings of a tree.

ghost use Rattle.std.specs.Prelude.{◌≡◌, length, option_map, slice_get};

use crate::finding::Finding;
use std::marker::Model;

/// The findings of a tree: by place in printing order, and at one place by rule.
#[derive(Drop)]
pub struct Findings {
    items: Vec<Finding>,
}

impl Model for Findings {
    ghost use Rattle.std.specs.Prelude.{List};
    ghost use Rattle.scope_report.specs.declared.finding.Finding.{Finding};

    ghost Value = { List Finding };

    ghost view = { λ f. f.items.items };
}

impl Findings {
    // These findings.
    pub(crate) fn new(items: Vec<Finding>) -> Findings
        ensures { result ≡ items.items }
    {
        Findings { items }
    }

    /// How many there are.
    pub fn len(&self) -> usize
        ensures { result ≡ length self.now }
    {
        self.items.as_slice().len()
    }

    /// The i-th of them, from 0. None past the last.
    pub fn get(&self, i: usize) -> Option<&Finding>
        ensures { option_map (λ f. f.now) result ≡ slice_get self.now i }
    {
        self.items.as_slice().get(i)
    }
}
