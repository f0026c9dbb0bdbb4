ghost use Rattle.std.specs.Prelude.{◌≡◌, ◌↔◌, IsTrue};
ghost use Rattle.sw_types.specs.Accepts.{IsAcceptedAs, is_marked, unmarked};

use crate::ty::Ty;

/// Whether a value of the type `from` may go where `to` is expected.
pub fn accepts(from: &Ty, to: &Ty) -> bool
    ensures { IsTrue result ↔ IsAcceptedAs from.now to.now }
{
    is_same_unmarked(from, to) && (is_marked(from) || !is_marked(to))
}

/// Whether the type is a function type with `@Sendable` at its top.
fn is_marked(ty: &Ty) -> bool
    ensures { result ≡ is_marked ty.now }
{
    match ty {
        Ty::Func { sendable, .. } => *sendable,
        Ty::Int | Ty::Bool | Ty::Unit | Ty::Named(_) | Ty::Task(_) => false,
    }
}

/// Whether two types are equal but for a `@Sendable` at their top.
fn is_same_unmarked(left: &Ty, right: &Ty) -> bool
    ensures { IsTrue result ↔ (unmarked left.now ≡ unmarked right.now) }
{
    match (left, right) {
        (
            Ty::Func { params, result, .. },
            Ty::Func {
                params: expected,
                result: given,
                ..
            },
        ) => are_same(params.as_slice(), expected.as_slice()) && is_same(result.get(), given.get()),
        _ => is_same(left, right),
    }
}

/// Whether two lists of types are equal.
#[cycle(same)]
fn are_same(left: &[Ty], right: &[Ty]) -> bool
    ensures { IsTrue result ↔ (left.now ≡ right.now) }
{
    if left.len() != right.len() {
        return false;
    }
    for (one, other) in left.iter().zip(right) {
        if !is_same(one, other) {
            return false;
        }
    }
    true
}

/// Whether two types are equal.
#[cycle(same)]
fn is_same(left: &Ty, right: &Ty) -> bool
    ensures { IsTrue result ↔ (left.now ≡ right.now) }
{
    match (left, right) {
        (Ty::Int, Ty::Int) | (Ty::Bool, Ty::Bool) | (Ty::Unit, Ty::Unit) => true,
        (Ty::Named(one), Ty::Named(other)) => one == other,
        (
            Ty::Func {
                sendable,
                params,
                result,
            },
            Ty::Func {
                sendable: marked,
                params: expected,
                result: given,
            },
        ) => {
            sendable == marked
                && are_same(params.as_slice(), expected.as_slice())
                && is_same(result.get(), given.get())
        }
        (Ty::Task(one), Ty::Task(other)) => is_same(one.get(), other.get()),
        _ => false,
    }
}
