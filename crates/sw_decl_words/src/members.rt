//! The members of types, by name.
ghost use Rattle.std.specs.Prelude.{◌≡◌, ◌++◌, ◌<◌, ◌^◌, length, IfOk, OnOk};
ghost use Rattle.sw_decl_words.specs.Members.{cases_from, earlier_member, members_from, members_of};
ghost use Rattle.sw_decl_words.specs.Members.{methods_of, parts_from};
ghost use Rattle.sw_decl_words.specs.declared.members.Owned.{Owned};

use crate::words::{is_reserved, shapes_made};
use indexmap::IndexMap;
use std::alloc::{AllocError, Global};
use sw_list::ListOf;
use sw_tree::{CaseTree, Decl, FuncTree, Name, PropTree};

/// What a member of a type is.
#[derive(Clone, Copy)]
pub enum Role {
    /// A stored property, by its number among those of the type.
    Part(usize),
    /// A case of an enum, by its number.
    Case(usize),
    Method,
}

/// A member of a type: its word, and what it is.
#[derive(Clone, Copy)]
pub struct Member {
    pub word: Name,
    pub role: Role,
}

/// A member, and the number of its type's shape.
#[derive(Clone, Copy)]
pub struct Owned {
    pub shape: u32,
    pub member: Member,
}

/// The number of a shape, and the id of a word.
#[derive(Clone, Copy, PartialEq, Eq, Hash)]
pub struct MemberKey {
    pub shape: u32,
    pub word: u32,
}

/// The members of all types of a program by name. Where several members have one name it is that of
/// the first of them, and the declaration of a word that can't be declared makes no member.
#[derive(Drop)]
pub struct Members {
    pub table: IndexMap<MemberKey, Member>,
}

/// Adds the stored properties of a type.
fn add_parts(shape: u32, props: &[PropTree], members: &mut ListOf<Owned>) -> Result<(), AllocError>
    ensures { OnOk result (members.new ≡ members.old ++ parts_from shape 0 props.now) }
{
    for (number, prop) in props.iter().enumerate() {
        members.push(Owned {
            shape,
            member: Member {
                word: prop.word,
                role: Role::Part(number),
            },
        })?;
    }
    Ok(())
}

/// Adds the cases of an enum.
fn add_cases(shape: u32, cases: &[CaseTree], members: &mut ListOf<Owned>) -> Result<(), AllocError>
    ensures { OnOk result (members.new ≡ members.old ++ cases_from shape 0 cases.now) }
{
    for (number, case) in cases.iter().enumerate() {
        members.push(Owned {
            shape,
            member: Member {
                word: case.word,
                role: Role::Case(number),
            },
        })?;
    }
    Ok(())
}

/// Adds the methods of a type.
fn add_methods(
    shape: u32,
    funcs: &[FuncTree],
    members: &mut ListOf<Owned>,
) -> Result<(), AllocError>
    ensures { OnOk result (members.new ≡ members.old ++ methods_of shape funcs.now) }
{
    for func in funcs {
        members.push(Owned {
            shape,
            member: Member {
                word: func.word,
                role: Role::Method,
            },
        })?;
    }
    Ok(())
}

/// Adds the members of the type that a declaration makes.
#[tactic(auto, unfolding(crate::specs::Members::members_of))]
fn add_members(shape: u32, decl: &Decl, members: &mut ListOf<Owned>) -> Result<(), AllocError>
    ensures { OnOk result (members.new ≡ members.old ++ members_of shape decl.now) }
{
    match decl {
        Decl::Struct { fields, funcs, .. } => {
            add_parts(shape, fields.as_slice(), members)?;
            add_methods(shape, funcs.as_slice(), members)
        }
        Decl::Enum { cases, funcs, .. } => {
            add_cases(shape, cases.as_slice(), members)?;
            add_methods(shape, funcs.as_slice(), members)
        }
        Decl::Class { props, funcs, .. } | Decl::Actor { props, funcs, .. } => {
            add_parts(shape, props.as_slice(), members)?;
            add_methods(shape, funcs.as_slice(), members)
        }
        Decl::Entry { .. } | Decl::GlobalActor { .. } | Decl::Func(_) | Decl::Global(_) => Ok(()),
    }
}

/// The members of the types of a program, in order.
fn all_members(alloc: Global, decls: &[Decl]) -> Result<ListOf<Owned>, AllocError>
    requires { length decls.now < 2 ^ 31 }
    ensures { IfOk result (λ members. members ≡ members_from 0 decls.now) }
{
    let mut members = ListOf::new(alloc);
    let mut shape = 0;
    for decl in decls {
        add_members(shape, decl, &mut members)?;
        shape += shapes_made(decl);
    }
    Ok(members)
}

/// The member whose word stands first.
fn earlier(first: Option<Member>, member: Member) -> Member
    ensures { result ≡ earlier_member first member }
{
    match first {
        None => member,
        Some(first) => {
            if member.word.at < first.word.at {
                member
            } else {
                first
            }
        }
    }
}

impl Members {
    ghost use Rattle.std.specs.Prelude.{◌≡◌, ◌<◌, ◌^◌, ℕ, Some, length, IfOk, OnOk};
    ghost use Rattle.std.specs.Prelude.{if◌then◌else◌};
    ghost use Rattle.sw_decl_words.specs.Members.{earlier_member, first_member, is_named, member_at};
    ghost use Rattle.sw_decl_words.specs.Members.{member_of};
    ghost use Rattle.sw_decl_words.specs.declared.members.Owned.{Owned};

    /// The member of a type with a name, if it has one.
    pub fn get(&self, shape: u32, word: u32) -> Option<Member>
        ensures { result ≡ member_at self.now shape word }
    {
        self.table.get(&MemberKey { shape, word }).copied()
    }

    /// Notes a member under its name, where it is the first of it and the name can be declared.
    fn note(&mut self, owned: Owned) -> Result<(), AllocError>
        ensures { OnOk result ((shape word : ℕ) → member_at self.new shape word
            ≡ (if is_named owned shape word
            then Some (earlier_member (member_at self.old shape word) owned.member)
            else member_at self.old shape word)) }
    {
        let word = owned.member.word.id;
        if is_reserved(word) {
            return Ok(());
        }
        let member = earlier(self.get(owned.shape, word), owned.member);
        let key = MemberKey {
            shape: owned.shape,
            word,
        };
        self.table.insert(key, member)?;
        Ok(())
    }

    /// A table of members by name.
    fn table_of(alloc: Global, owned: &[Owned]) -> Result<Members, AllocError>
        ensures { IfOk result (λ members. (shape word : ℕ)
            → member_at members shape word ≡ first_member owned.now shape word) }
    {
        let mut members = Members {
            table: IndexMap::new(alloc),
        };
        for one in owned {
            members.note(*one)?;
        }
        Ok(members)
    }

    /// The members of the types of these declarations.
    pub fn of(alloc: Global, decls: &[Decl]) -> Result<Members, AllocError>
        requires { length decls.now < 2 ^ 31 }
        ensures { IfOk result (λ members. (shape word : ℕ)
            → member_at members shape word ≡ member_of decls.now shape word) }
    {
        Members::table_of(alloc, all_members(alloc, decls)?.as_slice())
    }
}
