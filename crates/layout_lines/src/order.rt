//! Which line may follow.
ghost use Rattle.std.specs.Prelude.{◌≡◌, not};
ghost use Rattle.layout_words.specs.Steps.{lent};
ghost use Rattle.layout_lines.specs.Sets.{may_follow, may_follow_set, last_may_go_on, may_go_on, last_of, has_scopes, has_vars, last_scope, is_empty};

use crate::open_entry::OpenEntry;
use layout_set::{Func, Scope, Set, TypeDef};
use layout_words::LineKind;

/// Whether a line of such a kind may follow the text of the set and of the entry that stands open.
pub fn may_follow(set: &Set, begun: Option<&OpenEntry>, kind: LineKind) -> bool
    ensures { result ≡ may_follow set.now (lent begun.entry) kind }
{
    match begun {
        Some(_) => matches!(kind, LineKind::Piece),
        None => may_follow_set(set, kind),
    }
}

/// Whether a line of such a kind may follow the text of the set.
fn may_follow_set(set: &Set, kind: LineKind) -> bool
    ensures { result ≡ may_follow_set set.now kind }
{
    let funcs = set.funcs.as_slice();
    match kind {
        LineKind::Version | LineKind::Target | LineKind::Piece => false,
        LineKind::Func => true,
        LineKind::Scope => !funcs.is_empty(),
        LineKind::Var | LineKind::Arg => has_scopes(funcs),
        LineKind::At => has_vars(funcs),
        LineKind::Static => funcs.is_empty(),
        LineKind::Type => funcs.is_empty() && set.statics.as_slice().is_empty(),
        LineKind::Param | LineKind::Field | LineKind::Case | LineKind::Tag | LineKind::Variant => {
            funcs.is_empty()
                && set.statics.as_slice().is_empty()
                && last_may_go_on(set.types.as_slice(), kind)
        }
    }
}

fn last_may_go_on(types: &[TypeDef], kind: LineKind) -> bool
    ensures { result ≡ last_may_go_on (last_of types.now) kind }
{
    match types.last() {
        Some(def) => may_go_on(def, kind),
        None => false,
    }
}

/// Whether a part of such a kind may be the next part of the type.
fn may_go_on(def: &TypeDef, kind: LineKind) -> bool
    ensures { result ≡ may_go_on def.now kind }
{
    match def {
        TypeDef::Struct { fields, .. } => match kind {
            LineKind::Param => fields.as_slice().is_empty(),
            LineKind::Field => true,
            _ => false,
        },
        TypeDef::CLike { .. } => matches!(kind, LineKind::Case),
        TypeDef::Enum { tag, variants, .. } => match kind {
            LineKind::Param | LineKind::Tag => tag.is_none() && variants.as_slice().is_empty(),
            LineKind::Variant => true,
            LineKind::Field => !variants.as_slice().is_empty(),
            _ => false,
        },
        _ => false,
    }
}

/// Whether the last function has a scope.
fn has_scopes(funcs: &[Func]) -> bool
    ensures { result ≡ has_scopes (last_of funcs.now) }
{
    match funcs.last() {
        Some(func) => has_scope(func),
        None => false,
    }
}

fn has_scope(func: &Func) -> bool
    ensures { result ≡ not (is_empty func.now.scopes) }
{
    !func.scopes.as_slice().is_empty()
}

/// Whether the last scope of the last function has a variable.
fn has_vars(funcs: &[Func]) -> bool
    ensures { result ≡ has_vars (last_scope (last_of funcs.now)) }
{
    match funcs.last() {
        Some(func) => last_has_vars(func.scopes.as_slice()),
        None => false,
    }
}

fn last_has_vars(scopes: &[Scope]) -> bool
    ensures { result ≡ has_vars (last_of scopes.now) }
{
    match scopes.last() {
        Some(scope) => has_var(scope),
        None => false,
    }
}

fn has_var(scope: &Scope) -> bool
    ensures { result ≡ not (is_empty scope.now.vars) }
{
    !scope.vars.as_slice().is_empty()
}
