//! What maps and sets are asked by: pairs of numbers.

ghost use Rattle.std.specs.Prelude.{◌≡◌};
ghost use Rattle.scope_tables.specs.Keys.{number_from};

/// A name within a scope or a class body. What lies outside all of them counts from 0, and the n-th of them as n + 1.
#[derive(Clone, Copy, PartialEq, Eq, PartialOrd, Ord)]
pub struct Key {
    pub within: u64,
    pub name: u32,
}

impl Key {
    /// By their numbers.
    #[tactic(auto, unfolding(crate::specs::Keys::number_from))]
    pub fn new(within: Option<u32>, name: u32) -> Key
        ensures within { result.within ≡ number_from within }
        ensures name { result.name ≡ name }
    {
        match within {
            None => Key { within: 0, name },
            Some(number) => Key {
                within: number as u64 + 1,
                name,
            },
        }
    }
}

/// A scope and a node, by their numbers.
#[derive(Clone, Copy, PartialEq, Eq, PartialOrd, Ord)]
pub struct NodeInScope {
    pub scope: u32,
    pub node: u32,
}
