//! Simple values.
ghost use Rattle.std.specs.Prelude.{◌≡◌, nat_eq, map};
ghost use Rattle.indexmap.specs.IndexMap.{get};
ghost use Rattle.sw_tree.specs.Folds.{fold_arg, fold_link};
ghost use Rattle.sw_decl_words.specs.Evident.{tabled};
ghost use Rattle.sw_decl_values.specs.Simple.{all_simple, is_simple, read, worth, worth_steps};

use sw_decl_names::Places;
use sw_decl_words::{Meaning, Members, Words, case_type, enum_of, made_type, seen};
use sw_tree::{Arg, Expr, Link};

/// What a word means in a value: a parameter hides all else.
fn read(
    words: &Words,
    members: &Members,
    owner: Option<u32>,
    params: &Places,
    word: u32,
) -> Option<Meaning>
    ensures { result
        ≡ read (tabled words.now members.now) owner (get nat_eq params.now.places) word }
{
    if params.has(word) {
        None
    } else {
        seen(words, members, owner, word)
    }
}

/// The enum that an expression names before a `.`.
fn named_enum(
    words: &Words,
    members: &Members,
    owner: Option<u32>,
    params: &Places,
    base: &Expr,
) -> Option<u32>
    ensures { result
        ≡ (worth (tabled words.now members.now) owner (get nat_eq params.now.places)
        base.now).enum }
{
    match base {
        Expr::Use { name } => enum_of(read(words, members, owner, params, name.id)),
        Expr::Int { .. }
        | Expr::Bool { .. }
        | Expr::Me { .. }
        | Expr::Member { .. }
        | Expr::Call { .. }
        | Expr::Method { .. }
        | Expr::Chain { .. }
        | Expr::Prefix { .. }
        | Expr::Await { .. }
        | Expr::Fun(_)
        | Expr::Spawn { .. }
        | Expr::Yield { .. } => None,
    }
}

/// Whether all arguments are simple.
#[cycle(simple)]
fn are_args_simple(
    words: &Words,
    members: &Members,
    owner: Option<u32>,
    params: &Places,
    args: &[Arg],
) -> bool
    ensures { result ≡ all_simple (map (fold_arg (worth_steps (tabled words.now members.now) owner
        (get nat_eq params.now.places))) args.now) }
{
    let mut all = true;
    for arg in args {
        all = all && is_simple(words, members, owner, params, &arg.value);
    }
    all
}

/// Whether all operands of a chain after the first are simple.
#[cycle(simple)]
fn are_links_simple(
    words: &Words,
    members: &Members,
    owner: Option<u32>,
    params: &Places,
    links: &[Link],
) -> bool
    ensures { result ≡ all_simple (map (fold_link (worth_steps (tabled words.now members.now) owner
        (get nat_eq params.now.places))) links.now) }
{
    let mut all = true;
    for link in links {
        all = all && is_simple(words, members, owner, params, &link.operand);
    }
    all
}

/// Whether an expression is simple, in a type and after parameters that it may read.
#[cycle(simple)]
pub fn is_simple(
    words: &Words,
    members: &Members,
    owner: Option<u32>,
    params: &Places,
    expr: &Expr,
) -> bool
    ensures { result
        ≡ is_simple (tabled words.now members.now) owner (get nat_eq params.now.places) expr.now }
{
    match expr {
        Expr::Int { .. } | Expr::Bool { .. } => true,
        Expr::Use { name } => params.has(name.id),
        Expr::Member { base, name } => {
            is_simple(words, members, owner, params, base.get())
                || case_type(
                    members,
                    named_enum(words, members, owner, params, base.get()),
                    *name,
                )
                .is_some()
        }
        Expr::Call { name, args } => {
            made_type(read(words, members, owner, params, name.id)).is_some()
                && are_args_simple(words, members, owner, params, args.as_slice())
        }
        Expr::Method { base, name, args } => {
            case_type(
                members,
                named_enum(words, members, owner, params, base.get()),
                *name,
            )
            .is_some()
                && are_args_simple(words, members, owner, params, args.as_slice())
        }
        Expr::Chain { first, rest } => {
            is_simple(words, members, owner, params, first.get())
                && are_links_simple(words, members, owner, params, rest.as_slice())
        }
        Expr::Prefix { inner, .. } => is_simple(words, members, owner, params, inner.get()),
        Expr::Me { .. }
        | Expr::Await { .. }
        | Expr::Fun(_)
        | Expr::Spawn { .. }
        | Expr::Yield { .. } => false,
    }
}
