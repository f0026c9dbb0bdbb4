//! Declarations of types.

ghost use Rattle.sw_grammar_forms.specs.Outcome.{Gives};
ghost use Rattle.sw_grammar.specs.Decls.{conforms, struct_inside, enum_inside, class_inside};
ghost use Rattle.sw_grammar.specs.Decls.{struct_decl, enum_decl, actor_decl, class_after};
ghost use Rattle.std.specs.Prelude.{codes};
ghost use Rattle.sw_grammar.specs.Nests.Nest.{in_struct, in_enum, in_class};
ghost use Rattle.sw_grammar.specs.Reading.{read};
ghost use Rattle.sw_grammar_forms.specs.Quotes.{quote};
ghost use Rattle.sw_parse_parts.specs.Around.{known};
ghost use Rattle.sw_parse_parts.specs.Nested.{made, nested};
ghost use Rattle.sw_parse_decl.specs.declared.kinds.TypeKind.TheVariants as kinds;
ghost use Rattle.sw_parse_decl.specs.Members.{and_member, collected};
ghost use Rattle.sw_parse_decl.specs.Kinds.{member_of, members_of};

use crate::bodies::Bodies;
use crate::functions::declared;
use crate::kinds::{TypeKind, sees_member};
use crate::members::{Members, enum_cases, field, init, method_member, prop};
use std::alloc::Global;
use sw_grammar_forms::{Cursor, Stop};
use sw_parse_parts::{Around, sees_binding};
use sw_tree::{Decl, Written};

/// One more member of a type of this kind.
fn member<B: Bodies>(
    alloc: Global,
    bodies: &B,
    around: &Around<'_>,
    tokens: &mut Cursor<'_>,
    depth: u32,
    kind: TypeKind,
    members: Members,
) -> Result<Members, Stop>
    ensures { Gives (and_member members
        (read (known around.now) depth (member_of (known around.now) kind)) tokens.old) result
        tokens.new }
{
    match kind {
        TypeKind::Struct => struct_member(alloc, bodies, around, tokens, depth, members),
        TypeKind::Enum => enum_member(alloc, bodies, around, tokens, depth, members),
        TypeKind::Class => class_member(alloc, bodies, around, tokens, depth, members),
    }
}

/// One more member of a struct.
fn struct_member<B: Bodies>(
    alloc: Global,
    bodies: &B,
    around: &Around<'_>,
    tokens: &mut Cursor<'_>,
    depth: u32,
    members: Members,
) -> Result<Members, Stop>
    ensures { Gives (and_member members
        (read (known around.now) depth (member_of (known around.now) kinds.Struct)) tokens.old)
        result
        tokens.new }
{
    if sees_binding(tokens) {
        return field(alloc, around, tokens, depth, members);
    }
    method_member(alloc, bodies, around, tokens, depth, members)
}

/// One more member of an enum.
fn enum_member<B: Bodies>(
    alloc: Global,
    bodies: &B,
    around: &Around<'_>,
    tokens: &mut Cursor<'_>,
    depth: u32,
    members: Members,
) -> Result<Members, Stop>
    ensures { Gives (and_member members
        (read (known around.now) depth (member_of (known around.now) kinds.Enum)) tokens.old) result
        tokens.new }
{
    if tokens.sees("case") {
        return enum_cases(alloc, around, tokens, depth, members);
    }
    method_member(alloc, bodies, around, tokens, depth, members)
}

/// One more member of a class or an actor.
fn class_member<B: Bodies>(
    alloc: Global,
    bodies: &B,
    around: &Around<'_>,
    tokens: &mut Cursor<'_>,
    depth: u32,
    members: Members,
) -> Result<Members, Stop>
    ensures { Gives (and_member members
        (read (known around.now) depth (member_of (known around.now) kinds.Class)) tokens.old)
        result
        tokens.new }
{
    if sees_binding(tokens) {
        return prop(alloc, bodies, around, tokens, depth, members);
    }
    if tokens.sees("init") {
        return init(alloc, bodies, around, tokens, depth, members);
    }
    method_member(alloc, bodies, around, tokens, depth, members)
}

/// The members of a type of this kind, up to a token that begins none.
fn members<B: Bodies>(
    alloc: Global,
    bodies: &B,
    around: &Around<'_>,
    tokens: &mut Cursor<'_>,
    depth: u32,
    kind: TypeKind,
) -> Result<Members, Stop>
    ensures { Gives (made collected (members_of (known around.now) depth kind) tokens.old) result
        tokens.new }
{
    let mut members = Members::new(alloc);
    let mut ended = true;
    while sees_member(kind, tokens) {
        tokens.start(!ended)?;
        members = member(alloc, bodies, around, tokens, depth, kind, members)?;
        ended = tokens.skip(";");
    }
    Ok(members)
}

/// The members of a struct and its `}`.
#[tactic(auto, unfolding(sw_grammar::specs::Decls::struct_inside))]
fn struct_inside<B: Bodies>(
    alloc: Global,
    bodies: &B,
    around: &Around<'_>,
    tokens: &mut Cursor<'_>,
    depth: u32,
) -> Result<Members, Stop>
    ensures { Gives (made collected (read (known around.now) depth (struct_inside (known
        around.now)))
        tokens.old) result tokens.new }
{
    let members = members(alloc, bodies, around, tokens, depth, TypeKind::Struct)?;
    tokens.expect("}")?;
    Ok(members)
}

/// The members of an enum and its `}`.
#[tactic(auto, unfolding(sw_grammar::specs::Decls::enum_inside))]
fn enum_inside<B: Bodies>(
    alloc: Global,
    bodies: &B,
    around: &Around<'_>,
    tokens: &mut Cursor<'_>,
    depth: u32,
) -> Result<Members, Stop>
    ensures { Gives (made collected (read (known around.now) depth (enum_inside (known around.now)))
        tokens.old) result tokens.new }
{
    let members = members(alloc, bodies, around, tokens, depth, TypeKind::Enum)?;
    tokens.expect("}")?;
    Ok(members)
}

/// The members of a class or an actor and its `}`.
#[tactic(auto, unfolding(sw_grammar::specs::Decls::class_inside))]
fn class_inside<B: Bodies>(
    alloc: Global,
    bodies: &B,
    around: &Around<'_>,
    tokens: &mut Cursor<'_>,
    depth: u32,
) -> Result<Members, Stop>
    ensures { Gives (made collected (read (known around.now) depth (class_inside (known
        around.now)))
        tokens.old) result tokens.new }
{
    let members = members(alloc, bodies, around, tokens, depth, TypeKind::Class)?;
    tokens.expect("}")?;
    Ok(members)
}

/// `: Sendable`, or nothing.
#[tactic(auto, unfolding(sw_grammar::specs::Decls::conforms))]
fn conforms(around: &Around<'_>, tokens: &mut Cursor<'_>, depth: u32) -> Result<bool, Stop>
    ensures { Gives (read (known around.now) depth (conforms (known around.now)) tokens.old) result
        tokens.new }
{
    if tokens.sees(":") {
        tokens.expect(":")?;
        tokens.expect("Sendable")?;
        return Ok(true);
    }
    Ok(false)
}

/// A struct.
#[tactic(auto, unfolding(sw_grammar::specs::Decls::struct_decl))]
pub fn struct_decl<B: Bodies>(
    alloc: Global,
    bodies: &B,
    around: &Around<'_>,
    tokens: &mut Cursor<'_>,
    depth: u32,
) -> Result<Decl, Stop>
    ensures { Gives (read (known around.now) depth (struct_decl (known around.now)) tokens.old)
        result
        tokens.new }
{
    tokens.expect("struct")?;
    let word = declared(around, tokens, depth)?;
    let conforms = conforms(around, tokens, depth)?;
    let members = struct_body(alloc, bodies, around, tokens, depth)?;
    Ok(Decl::Struct {
        word,
        conforms,
        fields: members.props,
        funcs: members.funcs,
    })
}

/// An enum.
#[tactic(auto, unfolding(sw_grammar::specs::Decls::enum_decl))]
pub fn enum_decl<B: Bodies>(
    alloc: Global,
    bodies: &B,
    around: &Around<'_>,
    tokens: &mut Cursor<'_>,
    depth: u32,
) -> Result<Decl, Stop>
    ensures { Gives (read (known around.now) depth (enum_decl (known around.now)) tokens.old) result
        tokens.new }
{
    tokens.expect("enum")?;
    let word = declared(around, tokens, depth)?;
    let conforms = conforms(around, tokens, depth)?;
    let members = enum_body(alloc, bodies, around, tokens, depth)?;
    Ok(Decl::Enum {
        word,
        conforms,
        cases: members.cases,
        funcs: members.funcs,
    })
}

/// An actor.
#[tactic(auto, unfolding(sw_grammar::specs::Decls::actor_decl))]
pub fn actor_decl<B: Bodies>(
    alloc: Global,
    bodies: &B,
    around: &Around<'_>,
    tokens: &mut Cursor<'_>,
    depth: u32,
) -> Result<Decl, Stop>
    ensures { Gives (read (known around.now) depth (actor_decl (known around.now)) tokens.old)
        result
        tokens.new }
{
    tokens.expect("actor")?;
    let word = declared(around, tokens, depth)?;
    let members = class_body(alloc, bodies, around, tokens, depth)?;
    Ok(Decl::Actor {
        word,
        props: members.props,
        inits: members.inits,
        funcs: members.funcs,
    })
}

/// A class, after the isolation that is written.
#[tactic(auto, unfolding(sw_grammar::specs::Decls::class_after))]
pub fn class_after<B: Bodies>(
    alloc: Global,
    bodies: &B,
    around: &Around<'_>,
    tokens: &mut Cursor<'_>,
    depth: u32,
    written: Written,
) -> Result<Decl, Stop>
    ensures { Gives (read (known around.now) depth (class_after (known around.now) written)
        tokens.old) result tokens.new }
{
    tokens.expect("final")?;
    tokens.expect("class")?;
    let word = declared(around, tokens, depth)?;
    let conforms = conforms(around, tokens, depth)?;
    let members = class_body(alloc, bodies, around, tokens, depth)?;
    Ok(Decl::Class {
        written,
        word,
        conforms,
        props: members.props,
        inits: members.inits,
        funcs: members.funcs,
    })
}

/// What stands in the `{` and `}` of a struct.
fn struct_body<B: Bodies>(
    alloc: Global,
    bodies: &B,
    around: &Around<'_>,
    tokens: &mut Cursor<'_>,
    depth: u32,
) -> Result<Members, Stop>
    ensures { Gives (made collected (nested (known around.now) depth (quote (codes "{")) in_struct)
        tokens.old) result tokens.new }
{
    tokens.open("{", depth)?;
    struct_inside(alloc, bodies, &around.outermost(), tokens, depth - 1)
}

/// What stands in the `{` and `}` of an enum.
fn enum_body<B: Bodies>(
    alloc: Global,
    bodies: &B,
    around: &Around<'_>,
    tokens: &mut Cursor<'_>,
    depth: u32,
) -> Result<Members, Stop>
    ensures { Gives (made collected (nested (known around.now) depth (quote (codes "{")) in_enum)
        tokens.old) result tokens.new }
{
    tokens.open("{", depth)?;
    enum_inside(alloc, bodies, &around.outermost(), tokens, depth - 1)
}

/// What stands in the `{` and `}` of a class or an actor.
fn class_body<B: Bodies>(
    alloc: Global,
    bodies: &B,
    around: &Around<'_>,
    tokens: &mut Cursor<'_>,
    depth: u32,
) -> Result<Members, Stop>
    ensures { Gives (made collected (nested (known around.now) depth (quote (codes "{")) in_class)
        tokens.old) result tokens.new }
{
    tokens.open("{", depth)?;
    class_inside(alloc, bodies, &around.outermost(), tokens, depth - 1)
}
