//! Which faults there are.

ghost use Rattle.std.specs.Prelude.{◌≡◌, ◌<◌, ◌||◌, Some, length, slice_get};
ghost use Rattle.std.specs.List.{list_any};

/// Which faults a place has, or the scopes of a tree.
#[derive(Clone, Copy)]
pub struct Faults {
    /// A name is declared again.
    pub redeclaration: bool,
    /// A `var` crosses another declaration of its name.
    pub crossing: bool,
    /// A plain function is declared in a block of sloppy code.
    pub sloppy_function: bool,
    /// A private name is used that no class body around it declares.
    pub undeclared: bool,
    /// A parameter or catch pattern reaches a declaration of the body.
    pub reach: bool,
}

impl Faults {
    /// The i-th of these, from 0.
    pub fn nth(faults: &[Faults], i: usize) -> Faults
        requires { i < length faults.now }
        ensures { slice_get faults.now i ≡ Some result }
    {
        faults[i]
    }

    /// Those that one of these has.
    pub fn of_any(faults: &[Faults]) -> Faults
        ensures redeclaration { result.redeclaration ≡ list_any (λ f. f.redeclaration) faults.now }
        ensures crossing { result.crossing ≡ list_any (λ f. f.crossing) faults.now }
        ensures sloppy_function { result.sloppy_function ≡ list_any (λ f. f.sloppy_function) faults.now }
        ensures undeclared { result.undeclared ≡ list_any (λ f. f.undeclared) faults.now }
        ensures reach { result.reach ≡ list_any (λ f. f.reach) faults.now }
    {
        Faults {
            redeclaration: any_redeclaration(faults),
            crossing: any_crossing(faults),
            sloppy_function: any_sloppy_function(faults),
            undeclared: any_undeclared(faults),
            reach: any_reach(faults),
        }
    }

    /// Whether they have one of these.
    pub fn any(self) -> bool
        ensures { result ≡ (self.redeclaration || self.crossing || self.sloppy_function || self.undeclared || self.reach) }
    {
        self.redeclaration || self.crossing || self.sloppy_function || self.undeclared || self.reach
    }
}

// Whether one of these is a redeclaration.
fn any_redeclaration(faults: &[Faults]) -> bool
    ensures { result ≡ list_any (λ f. f.redeclaration) faults.now }
{
    faults.iter().any(|f| f.redeclaration)
}

// Whether one of these crosses.
fn any_crossing(faults: &[Faults]) -> bool
    ensures { result ≡ list_any (λ f. f.crossing) faults.now }
{
    faults.iter().any(|f| f.crossing)
}

// Whether one of these is a sloppy function.
fn any_sloppy_function(faults: &[Faults]) -> bool
    ensures { result ≡ list_any (λ f. f.sloppy_function) faults.now }
{
    faults.iter().any(|f| f.sloppy_function)
}

// Whether one of these is undeclared.
fn any_undeclared(faults: &[Faults]) -> bool
    ensures { result ≡ list_any (λ f. f.undeclared) faults.now }
{
    faults.iter().any(|f| f.undeclared)
}

// Whether one of these reaches a body.
fn any_reach(faults: &[Faults]) -> bool
    ensures { result ≡ list_any (λ f. f.reach) faults.now }
{
    faults.iter().any(|f| f.reach)
}
