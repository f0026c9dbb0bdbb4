//! First values and initialisers outside the profile.
ghost use Rattle.std.specs.Prelude.{◌≡◌, ◌++◌, ◌<◌, ◌^◌, ℕ, Some, length, flat_map, nat_eq};
ghost use Rattle.std.specs.Prelude.{IfOk, OnOk};
ghost use Rattle.indexmap.specs.IndexMap.{get};
ghost use Rattle.sw_decl_words.specs.Evident.{tabled};
ghost use Rattle.sw_decl_names.specs.Repeats.{first_place};
ghost use Rattle.sw_decl_values.specs.Counts.{times_in};
ghost use Rattle.sw_decl_values.specs.Values.{set_in};
ghost use Rattle.sw_decl_values.specs.Profile.{first_value, in_first_init, in_object, in_stmt, in_stmts};
ghost use Rattle.sw_decl_values.specs.Profile.{is_filled, is_typed, is_word, outside, param_names};
ghost use Rattle.sw_decl_values.specs.Profile.{unless_simple, value_found, value_layer, values_from};
ghost use Rattle.sw_decl_values.specs.Profile.{values_of};
ghost use Rattle.sw_decl_values.specs.Profile.{wanted_names};
ghost use Rattle.sw_decl_words.specs.declared.words.Words.{Words};
ghost use Rattle.sw_tree.specs.declared.stmt.Stmt.{out-Stmt};

use crate::counts::Counts;
use crate::simplicity::is_simple;
use crate::values::{add_without_value, set_by, set_in};
use std::alloc::{AllocError, Global};
use sw_decl_names::Places;
use sw_decl_words::{Member, Members, Placed, Words, evident, shapes_made};
use sw_list::ListOf;
use sw_tree::{Decl, Expr, InitTree, Name, NameList, ParamTree, PropTree, Stmt, TypeTree};

/// Adds a breach at the key of a node.
fn add_outside(at: u32, found: &mut ListOf<Placed>) -> Result<(), AllocError>
    ensures { OnOk result (found.new ≡ found.old ++ outside at) }
{
    found.push(Placed { at, code: 306 })
}

/// Adds a value that isn't simple.
fn add_unless_simple(
    words: &Words,
    members: &Members,
    owner: Option<u32>,
    params: &Places,
    value: &Expr,
    found: &mut ListOf<Placed>,
) -> Result<(), AllocError>
    ensures { OnOk result (found.new ≡ found.old ++ unless_simple (tabled words.now members.now)
        owner (get nat_eq params.now.places) value.now) }
{
    if is_simple(words, members, owner, params, value) {
        Ok(())
    } else {
        add_outside(value.key(), found)
    }
}

/// Whether a type is written, or evident from the value.
fn is_typed(
    words: &Words,
    members: &Members,
    owner: Option<u32>,
    ty: &Option<TypeTree>,
    value: &Expr,
) -> bool
    ensures { result ≡ is_typed (tabled words.now members.now) owner ty.now value.now }
{
    ty.is_some() || evident(words, members, owner, value).is_some()
}

/// Adds a first value, after parameters, that isn't simple, or from which the type isn't evident
/// where none is written.
fn add_value(
    words: &Words,
    members: &Members,
    owner: Option<u32>,
    params: &Places,
    prop: &PropTree,
    found: &mut ListOf<Placed>,
) -> Result<(), AllocError>
    ensures { OnOk result (found.new ≡ found.old ++ value_found (tabled words.now members.now)
        owner (get nat_eq params.now.places) prop.now.ty prop.now.value) }
{
    let Some(value) = &prop.value else {
        return Ok(());
    };
    if is_simple(words, members, owner, params, value)
        && is_typed(words, members, owner, &prop.ty, value)
    {
        Ok(())
    } else {
        add_outside(value.key(), found)
    }
}

/// Adds the first value of a property or a global variable where it is outside the profile.
fn add_first_value(
    alloc: Global,
    words: &Words,
    members: &Members,
    owner: Option<u32>,
    prop: &PropTree,
    found: &mut ListOf<Placed>,
) -> Result<(), AllocError>
    ensures { OnOk result (found.new
        ≡ found.old ++ first_value (tabled words.now members.now) owner prop.now) }
{
    let params = Places::of(alloc, &[])?;
    add_value(words, members, owner, &params, prop, found)
}

/// Adds the first values of the properties of a type.
fn add_first_values(
    alloc: Global,
    words: &Words,
    members: &Members,
    shape: u32,
    props: &[PropTree],
    found: &mut ListOf<Placed>,
) -> Result<(), AllocError>
    ensures { OnOk result (found.new ≡ found.old
        ++ flat_map (first_value (tabled words.now members.now) (Some shape)) props.now) }
{
    for prop in props {
        add_first_value(alloc, words, members, Some(shape), prop, found)?;
    }
    Ok(())
}

/// Whether a name means this word.
fn is_word(member: Option<Member>, word: Name) -> bool
    ensures { result ≡ is_word member word }
{
    match member {
        None => false,
        Some(member) => member.word.at == word.at,
    }
}

/// The properties that an initialiser has to give values.
fn wanted_names(
    alloc: Global,
    members: &Members,
    shape: u32,
    props: &[PropTree],
) -> Result<NameList, AllocError>
    ensures { IfOk result (λ names. (words : Words)
        → names ≡ wanted_names (tabled words members.now) shape props.now) }
{
    let mut names = ListOf::new(alloc);
    for prop in props {
        if prop.value.is_none() && is_word(members.get(shape, prop.word.id), prop.word) {
            names.push(prop.word)?;
        }
    }
    Ok(names)
}

/// The names of the parameters.
fn param_names(alloc: Global, params: &[ParamTree]) -> Result<NameList, AllocError>
    ensures { IfOk result (λ names. names ≡ param_names params.now) }
{
    let mut names = ListOf::new(alloc);
    for param in params {
        names.push(param.name)?;
    }
    Ok(names)
}

/// A table of the parameters.
fn params_of(alloc: Global, params: &[ParamTree]) -> Result<Places, AllocError>
    ensures { IfOk result (λ places. (id : ℕ)
        → get nat_eq places.places id ≡ first_place (param_names params.now) id) }
{
    Places::of(alloc, param_names(alloc, params)?.as_slice())
}

/// A table of the properties that an initialiser has to give values.
fn wanted_of(
    alloc: Global,
    members: &Members,
    shape: u32,
    props: &[PropTree],
) -> Result<Places, AllocError>
    ensures { IfOk result (λ places. (words : Words) (id : ℕ) → get nat_eq places.places id
        ≡ first_place (wanted_names (tabled words members.now) shape props.now) id) }
{
    Places::of(
        alloc,
        wanted_names(alloc, members, shape, props)?.as_slice(),
    )
}

/// A table of how often statements give properties values.
fn given_by(alloc: Global, stmts: &[Stmt]) -> Result<Counts, AllocError>
    ensures { IfOk result (λ counts. (id : ℕ)
        → get nat_eq counts.times id ≡ times_in (set_in stmts.now) id) }
{
    Counts::of(alloc, set_in(alloc, stmts)?.as_slice())
}

/// Whether a property has to be given a value and is given one by exactly one statement.
fn is_filled(wanted: &Places, given: &Counts, name: Option<Name>) -> bool
    ensures { result
        ≡ is_filled (get nat_eq wanted.now.places) (get nat_eq given.now.times) name }
{
    match name {
        None => false,
        Some(name) => wanted.has(name.id) && given.has_once(name.id),
    }
}

/// Adds the value of an assignment that isn't simple.
fn add_assigned(
    words: &Words,
    members: &Members,
    shape: u32,
    params: &Places,
    stmt: &Stmt,
    found: &mut ListOf<Placed>,
) -> Result<(), AllocError>
    ensures { OnOk result (found.new ≡ found.old ++ value_layer (tabled words.now members.now)
        shape (get nat_eq params.now.places) (out-Stmt stmt.now)) }
{
    match stmt {
        Stmt::Assign { value, .. } => {
            add_unless_simple(words, members, Some(shape), params, value, found)
        }
        Stmt::Bind { .. }
        | Stmt::Discard { .. }
        | Stmt::If { .. }
        | Stmt::While { .. }
        | Stmt::Switch { .. }
        | Stmt::Return { .. }
        | Stmt::Break { .. }
        | Stmt::Continue { .. }
        | Stmt::Plain(_) => Ok(()),
    }
}

/// Adds a statement of an initialiser that gives no property its value, or a value that isn't
/// simple.
fn add_stmt(
    words: &Words,
    members: &Members,
    shape: u32,
    params: &Places,
    wanted: &Places,
    given: &Counts,
    stmt: &Stmt,
    found: &mut ListOf<Placed>,
) -> Result<(), AllocError>
    ensures { OnOk result (found.new ≡ found.old ++ in_stmt (tabled words.now members.now) shape
        (get nat_eq params.now.places) (get nat_eq wanted.now.places)
        (get nat_eq given.now.times) stmt.now) }
{
    if is_filled(wanted, given, set_by(stmt)) {
        add_assigned(words, members, shape, params, stmt, found)
    } else {
        add_outside(stmt.key(), found)
    }
}

/// Adds the statements of an initialiser.
fn add_stmts(
    words: &Words,
    members: &Members,
    shape: u32,
    params: &Places,
    wanted: &Places,
    given: &Counts,
    stmts: &[Stmt],
    found: &mut ListOf<Placed>,
) -> Result<(), AllocError>
    ensures { OnOk result (found.new ≡ found.old
        ++ flat_map (in_stmt (tabled words.now members.now) shape (get nat_eq params.now.places)
        (get nat_eq wanted.now.places) (get nat_eq given.now.times)) stmts.now) }
{
    for stmt in stmts {
        add_stmt(words, members, shape, params, wanted, given, stmt, found)?;
    }
    Ok(())
}

/// Adds the breaches in an initialiser of a type with these properties.
fn in_init(
    alloc: Global,
    words: &Words,
    members: &Members,
    shape: u32,
    props: &[PropTree],
    init: &InitTree,
    found: &mut ListOf<Placed>,
) -> Result<(), AllocError>
    ensures { OnOk result (found.new ≡ found.old ++ in_stmts (tabled words.now members.now) shape
        props.now init.now.params init.now.body.stmts) }
{
    let stmts = init.body.stmts.as_slice();
    let params = params_of(alloc, init.params.as_slice())?;
    let wanted = wanted_of(alloc, members, shape, props)?;
    let given = given_by(alloc, stmts)?;
    add_stmts(
        words, members, shape, &params, &wanted, &given, stmts, found,
    )
}

/// Adds the breaches in the first initialiser, if there is one.
fn in_first_init(
    alloc: Global,
    words: &Words,
    members: &Members,
    shape: u32,
    props: &[PropTree],
    inits: &[InitTree],
    found: &mut ListOf<Placed>,
) -> Result<(), AllocError>
    ensures { OnOk result (found.new ≡ found.old
        ++ in_first_init (tabled words.now members.now) shape props.now inits.now) }
{
    match inits.split_first() {
        None => Ok(()),
        Some((init, _)) => in_init(alloc, words, members, shape, props, init, found),
    }
}

/// Adds the breaches of values in a class or an actor.
#[tactic(auto, unfolding(crate::specs::Profile::in_object))]
fn in_object(
    alloc: Global,
    words: &Words,
    members: &Members,
    shape: u32,
    props: &[PropTree],
    inits: &[InitTree],
    found: &mut ListOf<Placed>,
) -> Result<(), AllocError>
    ensures { OnOk result (found.new ≡ found.old
        ++ in_object (tabled words.now members.now) shape props.now inits.now) }
{
    add_without_value(alloc, props, inits, found)?;
    add_first_values(alloc, words, members, shape, props, found)?;
    in_first_init(alloc, words, members, shape, props, inits, found)
}

/// Adds the breaches of values in a declaration, by the number of shapes before it.
#[tactic(auto, unfolding(crate::specs::Profile::values_of))]
fn in_decl(
    alloc: Global,
    words: &Words,
    members: &Members,
    shape: u32,
    decl: &Decl,
    found: &mut ListOf<Placed>,
) -> Result<(), AllocError>
    ensures { OnOk result (found.new ≡ found.old
        ++ values_of (tabled words.now members.now) shape decl.now) }
{
    match decl {
        Decl::Class { props, inits, .. } | Decl::Actor { props, inits, .. } => in_object(
            alloc,
            words,
            members,
            shape,
            props.as_slice(),
            inits.as_slice(),
            found,
        ),
        Decl::Global(global) => add_first_value(alloc, words, members, None, global, found),
        Decl::Entry { .. }
        | Decl::Struct { .. }
        | Decl::Enum { .. }
        | Decl::GlobalActor { .. }
        | Decl::Func(_) => Ok(()),
    }
}

/// Adds the breaches of values in the declarations of a program.
pub fn add_values(
    alloc: Global,
    words: &Words,
    members: &Members,
    decls: &[Decl],
    found: &mut ListOf<Placed>,
) -> Result<(), AllocError>
    requires { length decls.now < 2 ^ 31 }
    ensures { OnOk result (found.new
        ≡ found.old ++ values_from (tabled words.now members.now) 0 decls.now) }
{
    let mut shape = 0;
    for decl in decls {
        in_decl(alloc, words, members, shape, decl, found)?;
        shape += shapes_made(decl);
    }
    Ok(())
}
