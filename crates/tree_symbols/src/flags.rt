//! Flags of symbols, of references and of scopes.

ghost use Rattle.std.specs.Prelude.{◌≡◌, [], ◌∷◌};
ghost use Rattle.syntax_sem.specs.Bits.{union_of};
ghost use Rattle.syntax_sem.specs.ReferenceFlags as reference;
ghost use Rattle.syntax_sem.specs.ScopeFlags as scope;
ghost use Rattle.syntax_sem.specs.SymbolFlags as symbol;
ghost use Rattle.tree_symbols.specs.Flags as spec;

use bitflags::Flags;
use place_list::ScopeKind;
use syntax_sem::reference::ReferenceFlags;
use syntax_sem::scope::ScopeFlags;
use syntax_sem::symbol::SymbolFlags;
use tree_nodes::{Declared, Role};

// Of a function, which may be async or a generator.
#[tactic(auto, unfolding(crate::specs::Flags::function_flags, crate::specs::Flags::flag_if))]
fn function_flags(special: bool) -> SymbolFlags
    ensures { symbol.bits_of result ≡ spec.function_flags special }
{
    if special {
        SymbolFlags::FUNCTION.union(SymbolFlags::ASYNC_OR_GENERATOR_FUNCTION)
    } else {
        SymbolFlags::FUNCTION
    }
}

// How a place declares.
#[tactic(auto, unfolding(crate::specs::Flags::declared_flags))]
fn declared_flags(declared: Declared) -> SymbolFlags
    ensures { symbol.bits_of result ≡ spec.declared_flags declared }
{
    match declared {
        Declared::Var | Declared::Param => SymbolFlags::FUNCTION_SCOPED_VARIABLE,
        Declared::Let => SymbolFlags::BLOCK_SCOPED_VARIABLE,
        Declared::Const => SymbolFlags::BLOCK_SCOPED_VARIABLE.union(SymbolFlags::CONST_VARIABLE),
        Declared::Function(special) => function_flags(special),
        Declared::FunctionName(special) => {
            function_flags(special).union(SymbolFlags::FUNCTION_EXPRESSION)
        }
        Declared::Class | Declared::ClassName => SymbolFlags::CLASS,
        Declared::Catch => SymbolFlags::CATCH_VARIABLE,
        Declared::Import => SymbolFlags::IMPORT,
    }
}

// What a place of a role declares.
#[tactic(auto, unfolding(crate::specs::Flags::role_flags))]
pub(crate) fn role_flags(role: Role) -> SymbolFlags
    ensures { symbol.bits_of result ≡ spec.role_flags role }
{
    match role {
        Role::Declares(declared) => declared_flags(declared),
        _ => SymbolFlags::NONE,
    }
}

// What a reference of a role does with its binding.
#[tactic(auto, unfolding(crate::specs::Flags::reference_flags, crate::specs::Flags::flag_if, scope_rules::specs::References::reads, scope_rules::specs::References::writes))]
pub(crate) fn reference_flags(role: Role) -> ReferenceFlags
    ensures { reference.bits_of result ≡ spec.reference_flags role }
{
    match role {
        Role::Read | Role::Called => ReferenceFlags::read(),
        Role::Write => ReferenceFlags::write(),
        Role::ReadWrite => ReferenceFlags::read_write(),
        _ => ReferenceFlags::NONE,
    }
}

// The construct that a scope belongs to.
#[tactic(auto, unfolding(crate::specs::Flags::kind_flags))]
fn kind_flags(kind: ScopeKind) -> ScopeFlags
    ensures { scope.bits_of result ≡ spec.kind_flags kind }
{
    match kind {
        ScopeKind::TopLevel => ScopeFlags::TOP,
        ScopeKind::Function => ScopeFlags::FUNCTION,
        ScopeKind::Constructor => ScopeFlags::FUNCTION.union(ScopeFlags::CONSTRUCTOR),
        ScopeKind::Getter => ScopeFlags::FUNCTION.union(ScopeFlags::GET_ACCESSOR),
        ScopeKind::Setter => ScopeFlags::FUNCTION.union(ScopeFlags::SET_ACCESSOR),
        ScopeKind::Arrow => ScopeFlags::FUNCTION.union(ScopeFlags::ARROW),
        ScopeKind::ClassStatic => ScopeFlags::CLASS_STATIC_BLOCK,
        ScopeKind::Catch => ScopeFlags::CATCH_CLAUSE,
        ScopeKind::With => ScopeFlags::WITH,
        ScopeKind::Block => ScopeFlags::empty(),
    }
}

// What is known of the code in a scope.
#[tactic(auto, unfolding(crate::specs::Flags::flag_if))]
fn code_flags(strict: bool, holds_eval: bool) -> ScopeFlags
    ensures { scope.bits_of result
        ≡ union_of (spec.flag_if strict scope.strict_mode ∷ spec.flag_if holds_eval scope.direct_eval ∷ []) }
{
    match (strict, holds_eval) {
        (true, true) => ScopeFlags::STRICT_MODE.union(ScopeFlags::DIRECT_EVAL),
        (true, false) => ScopeFlags::STRICT_MODE,
        (false, true) => ScopeFlags::DIRECT_EVAL,
        (false, false) => ScopeFlags::empty(),
    }
}

// Of a scope of this kind, by whether its code is strict and whether it holds a direct eval.
#[tactic(auto, unfolding(crate::specs::Flags::scope_flags))]
pub(crate) fn scope_flags(kind: ScopeKind, strict: bool, holds_eval: bool) -> ScopeFlags
    ensures { scope.bits_of result ≡ spec.scope_flags kind strict holds_eval }
{
    kind_flags(kind).union(code_flags(strict, holds_eval))
}
