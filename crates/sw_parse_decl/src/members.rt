//! The members of types.

ghost use Rattle.std.specs.Prelude.{◌≡◌, [], ◌∷◌, codes, option_map};
ghost use Rattle.sw_grammar_forms.specs.Outcome.{Gives};
ghost use Rattle.sw_grammar.specs.Decls.{method_member, value_if, field_after, field, prop_after};
ghost use Rattle.sw_grammar.specs.Decls.{prop};
ghost use Rattle.sw_grammar.specs.Decls.{init, enum_case, enum_cases};
ghost use Rattle.sw_grammar.specs.Types.{more_of};
ghost use Rattle.sw_grammar.specs.Nests.Nest.{in_payload};
ghost use Rattle.sw_grammar.specs.Reading.{read};
ghost use Rattle.sw_grammar_forms.specs.Quotes.{quote};
ghost use Rattle.sw_parse_parts.specs.Around.{known};
ghost use Rattle.sw_parse_parts.specs.Nested.{nested};
ghost use Rattle.sw_parse_decl.specs.Members.{collected, and_member};

use crate::bodies::Bodies;
use crate::functions::{declared, method, params};
use std::alloc::Global;
use sw_grammar_forms::{Cursor, Stop};
use sw_list::ListOf;
use sw_parse_parts::{Around, some_types, type_tree, written_type};
use sw_token::Fixity;
use sw_tree::{
    CaseList, CaseTree, Expr, FuncList, InitList, InitTree, PropList, PropTree, TypeTreeList,
    Written,
};

/// The members of a type, by their kinds.
#[derive(Drop)]
pub struct Members {
    pub props: PropList,
    pub inits: InitList,
    pub funcs: FuncList,
    pub cases: CaseList,
}

impl Members {
    /// No members.
    pub fn new(alloc: Global) -> Members
        ensures { result ≡ collected [] }
    {
        Members {
            props: ListOf::new(alloc),
            inits: ListOf::new(alloc),
            funcs: ListOf::new(alloc),
            cases: ListOf::new(alloc),
        }
    }
}

/// One more method.
#[tactic(auto, unfolding(sw_grammar::specs::Decls::method_member))]
pub fn method_member<B: Bodies>(
    alloc: Global,
    bodies: &B,
    around: &Around<'_>,
    tokens: &mut Cursor<'_>,
    depth: u32,
    members: Members,
) -> Result<Members, Stop>
    ensures { Gives (and_member members (read (known around.now) depth (method_member (known
        around.now)))
        tokens.old) result tokens.new }
{
    let func = method(alloc, bodies, around, tokens, depth)?;
    let mut members = members;
    members.funcs.push(func)?;
    Ok(members)
}

/// `=` and a value, or nothing.
#[tactic(auto, unfolding(sw_grammar::specs::Decls::value_if))]
fn value_if<B: Bodies>(
    alloc: Global,
    bodies: &B,
    around: &Around<'_>,
    tokens: &mut Cursor<'_>,
    depth: u32,
    wanted: Option<&str>,
) -> Result<Option<Expr>, Stop>
    ensures { Gives (read (known around.now) depth
        (value_if (known around.now) (option_map (λ text. text.now) wanted.entry)) tokens.old)
        result tokens.new }
{
    if tokens.sees_operator("=", Fixity::Infix) {
        let value = bodies.value_for(alloc, around, tokens, depth, wanted)?;
        return Ok(Some(value));
    }
    Ok(None)
}

/// A struct's field after its `let` or `var`.
#[tactic(auto, unfolding(sw_grammar::specs::Decls::field_after))]
fn field_after(
    alloc: Global,
    around: &Around<'_>,
    tokens: &mut Cursor<'_>,
    depth: u32,
    mutable: bool,
    members: Members,
) -> Result<Members, Stop>
    ensures { Gives (and_member members
        (read (known around.now) depth (field_after (known around.now) mutable)) tokens.old) result
        tokens.new }
{
    let word = declared(around, tokens, depth)?;
    tokens.expect(":")?;
    let ty = type_tree(alloc, around, tokens, depth)?;
    let mut members = members;
    members.props.push(PropTree {
        written: Written::Absent,
        mutable,
        word,
        ty: Some(ty),
        value: None,
    })?;
    Ok(members)
}

/// A struct's field.
#[tactic(auto, unfolding(sw_grammar::specs::Decls::field))]
pub fn field(
    alloc: Global,
    around: &Around<'_>,
    tokens: &mut Cursor<'_>,
    depth: u32,
    members: Members,
) -> Result<Members, Stop>
    ensures { Gives (and_member members (read (known around.now) depth (field (known around.now)))
        tokens.old) result tokens.new }
{
    if tokens.skip("let") {
        return field_after(alloc, around, tokens, depth, false, members);
    }
    tokens.expect("var")?;
    field_after(alloc, around, tokens, depth, true, members)
}

/// A property after its `let` or `var`.
#[tactic(auto, unfolding(sw_grammar::specs::Decls::prop_after))]
fn prop_after<B: Bodies>(
    alloc: Global,
    bodies: &B,
    around: &Around<'_>,
    tokens: &mut Cursor<'_>,
    depth: u32,
    mutable: bool,
    members: Members,
) -> Result<Members, Stop>
    ensures { Gives (and_member members
        (read (known around.now) depth (prop_after (known around.now) mutable)) tokens.old) result
        tokens.new }
{
    let word = declared(around, tokens, depth)?;
    let mut members = members;
    if tokens.skip(":") {
        let ty = written_type(alloc, around, tokens, depth)?;
        let value = value_if(alloc, bodies, around, tokens, depth, ty.wanted())?;
        members.props.push(PropTree {
            written: Written::Absent,
            mutable,
            word,
            ty: Some(ty.tree()),
            value,
        })?;
        return Ok(members);
    }
    let value = bodies.value(alloc, around, tokens, depth)?;
    members.props.push(PropTree {
        written: Written::Absent,
        mutable,
        word,
        ty: None,
        value: Some(value),
    })?;
    Ok(members)
}

/// A property of a class or an actor.
#[tactic(auto, unfolding(sw_grammar::specs::Decls::prop))]
pub fn prop<B: Bodies>(
    alloc: Global,
    bodies: &B,
    around: &Around<'_>,
    tokens: &mut Cursor<'_>,
    depth: u32,
    members: Members,
) -> Result<Members, Stop>
    ensures { Gives (and_member members (read (known around.now) depth (prop (known around.now)))
        tokens.old) result tokens.new }
{
    if tokens.skip("let") {
        return prop_after(alloc, bodies, around, tokens, depth, false, members);
    }
    tokens.expect("var")?;
    prop_after(alloc, bodies, around, tokens, depth, true, members)
}

/// An initialiser.
#[tactic(auto, unfolding(sw_grammar::specs::Decls::init))]
pub fn init<B: Bodies>(
    alloc: Global,
    bodies: &B,
    around: &Around<'_>,
    tokens: &mut Cursor<'_>,
    depth: u32,
    members: Members,
) -> Result<Members, Stop>
    ensures { Gives (and_member members (read (known around.now) depth (init (known around.now)))
        tokens.old) result tokens.new }
{
    let at = tokens.expect("init")?;
    let params = params(alloc, around, tokens, depth)?;
    let body = bodies.block(alloc, around, tokens, depth)?;
    let mut members = members;
    members.inits.push(InitTree { at, params, body })?;
    Ok(members)
}

/// The cases of an enum in one declaration.
#[tactic(auto, unfolding(sw_grammar::specs::Decls::enum_cases))]
pub fn enum_cases(
    alloc: Global,
    around: &Around<'_>,
    tokens: &mut Cursor<'_>,
    depth: u32,
    members: Members,
) -> Result<Members, Stop>
    ensures { Gives (and_member members (read (known around.now) depth (enum_cases (known
        around.now)))
        tokens.old) result tokens.new }
{
    tokens.expect("case")?;
    let first = enum_case(alloc, around, tokens, depth)?;
    let mut more = more_cases(alloc, around, tokens, depth, first)?.into_vec();
    let Members {
        props,
        inits,
        funcs,
        cases,
    } = members;
    let mut cases = cases.into_vec();
    cases.append(&mut more)?;
    Ok(Members {
        props,
        inits,
        funcs,
        cases: ListOf::from_vec(cases),
    })
}

/// The cases after the first, each with a `,` before it.
fn more_cases(
    alloc: Global,
    around: &Around<'_>,
    tokens: &mut Cursor<'_>,
    depth: u32,
    first: CaseTree,
) -> Result<CaseList, Stop>
    ensures { Gives (read (known around.now) depth
        (more_of (known around.now) (first ∷ []) (enum_case (known around.now))) tokens.old)
        result tokens.new }
{
    let mut cases = Vec::new(alloc);
    cases.push(first)?;
    while tokens.sees(",") {
        tokens.expect(",")?;
        cases.push(enum_case(alloc, around, tokens, depth)?)?;
    }
    Ok(ListOf::from_vec(cases))
}

/// A case of an enum.
#[tactic(auto, unfolding(sw_grammar::specs::Decls::enum_case))]
fn enum_case(
    alloc: Global,
    around: &Around<'_>,
    tokens: &mut Cursor<'_>,
    depth: u32,
) -> Result<CaseTree, Stop>
    ensures { Gives (read (known around.now) depth (enum_case (known around.now)) tokens.old) result
        tokens.new }
{
    let word = declared(around, tokens, depth)?;
    if tokens.sees("(") {
        let types = payload(alloc, around, tokens, depth)?;
        return Ok(CaseTree { word, types });
    }
    Ok(CaseTree {
        word,
        types: ListOf::new(alloc),
    })
}

/// The types of a case, in `(` and `)`.
fn payload(
    alloc: Global,
    around: &Around<'_>,
    tokens: &mut Cursor<'_>,
    depth: u32,
) -> Result<TypeTreeList, Stop>
    ensures { Gives (nested (known around.now) depth (quote (codes "(")) in_payload tokens.old)
        result tokens.new }
{
    tokens.open("(", depth)?;
    some_types(alloc, &around.outermost(), tokens, depth - 1)
}
