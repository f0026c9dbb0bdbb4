//! What is known of a program, by key.
ghost use Rattle.std.specs.Prelude.{◌≡◌, Option, slice_get, IfOk};
ghost use Rattle.std.specs.Option.{option_copied, option_map};
ghost use Rattle.sw_isolation_table.specs.Known.{answers_of};
ghost use Rattle.sw_isolation_rules.specs.Captures.{is_among, self_of};
ghost use Rattle.sw_isolation_rules.specs.Programs.{func_at};
ghost use Rattle.sw_isolation_rules.specs.Uses.{maker_at, named_shape};
ghost use Rattle.sw_lower_known.specs.Knowledge.{isolation_of, tables_by};
ghost use Rattle.sw_lower_rules.specs.Bodies.{tables_of};
ghost use Rattle.sw_lower_rules.specs.Uses.{self_key};
ghost use Rattle.sw_typing_rules.specs.Worlds.{world_of};

use crate::tables::{boxes_of, groups_of, isolations_of, part_keys_of};
use indexmap::{IndexMap, IndexSet};
use std::alloc::{AllocError, Global};
use sw_decls::{Decls, GlobalVar, Signature};
use sw_isolation_rules::{BodyIso, Capture};
use sw_isolation_table::Isolated;
use sw_list::ListOf;
use sw_tree::Decl;
use sw_types::{CallKind, Shape, Ty};
use sw_typing_rules::Meaning;
use sw_typing_table::Typed;

/// What is known of a program.
#[derive(Drop)]
pub struct Known<'a> {
    pub world: &'a Decls,
    pub typed: &'a Typed,
    pub isolated: &'a Isolated,
    /// The isolation of bodies by their keys.
    pub bodies: IndexMap<u32, BodyIso>,
    /// The captures of closures and tasks in order, by the keys of these.
    pub captures: IndexMap<u32, ListOf<Capture>>,
    /// The variables that are kept in boxes, by the keys of their declarations.
    pub boxes: IndexSet<u32>,
    /// The keys of the properties of each type, by the numbers of types and of properties.
    pub part_keys: ListOf<ListOf<u32>>,
}

impl<'a> Known<'a> {
    /// What is known of a program with these declarations, types and meanings.
    #[tactic(auto, unfolding(crate::specs::Knowledge::tables_by))]
    pub fn of(
        alloc: Global,
        decls: &[Decl],
        world: &'a Decls,
        typed: &'a Typed,
        isolated: &'a Isolated,
    ) -> Result<Known<'a>, AllocError>
        ensures { IfOk result (λ known. tables_by known ≡ tables_of (world_of world.now)
            (answers_of typed.now) (isolation_of isolated.now) decls.now) }
    {
        Ok(Known {
            world,
            typed,
            isolated,
            bodies: isolations_of(alloc, isolated.bodies.as_slice())?,
            captures: groups_of(alloc, isolated.captures.as_slice())?,
            boxes: boxes_of(alloc, isolated.boxes.as_slice())?,
            part_keys: part_keys_of(alloc, decls)?,
        })
    }

    /// The type of the expression, place or variable with this key.
    #[tactic(auto, unfolding(crate::specs::Knowledge::tables_by))]
    pub fn type_at(&self, key: u32) -> Option<&Ty>
        ensures { option_copied result ≡ (tables_by self.now).answers.type_at key }
    {
        self.typed.ty_at(key)
    }

    /// What the name, member or call with this key means.
    #[tactic(auto, unfolding(crate::specs::Knowledge::tables_by))]
    pub fn meaning_at(&self, key: u32) -> Option<Meaning>
        ensures { result ≡ (tables_by self.now).answers.meaning_at key }
    {
        self.typed.meaning_at(key)
    }

    /// The isolation of the body with this key.
    #[tactic(auto, unfolding(crate::specs::Knowledge::tables_by))]
    pub fn body_at(&self, key: u32) -> Option<BodyIso>
        ensures { result ≡ (tables_by self.now).isolation.body_at key }
    {
        self.bodies.get(&key).copied()
    }

    /// How the call or the crossing read with this key crosses.
    #[tactic(auto, unfolding(crate::specs::Knowledge::tables_by))]
    pub fn kind_at(&self, key: u32) -> Option<CallKind>
        ensures { result ≡ (tables_by self.now).isolation.kind_at key }
    {
        self.isolated.kind_at(key)
    }

    /// The captures of the closure or task with this key, in order.
    #[tactic(auto, unfolding(crate::specs::Knowledge::tables_by))]
    pub fn captures_of(&self, key: u32) -> &[Capture]
        ensures { result.now ≡ (tables_by self.now).isolation.captures_of key }
    {
        match self.captures.get(&key) {
            Some(captures) => captures.as_slice(),
            None => &[],
        }
    }

    /// Whether the variable whose declaration has this key is kept in a box.
    #[tactic(auto, unfolding(crate::specs::Knowledge::tables_by))]
    pub fn is_boxed(&self, key: u32) -> bool
        ensures { result ≡ (tables_by self.now).isolation.is_boxed key }
    {
        self.boxes.contains(&key)
    }

    /// The key of a property, by the numbers of its type and of the property.
    #[tactic(auto, unfolding(crate::specs::Knowledge::tables_by))]
    pub fn part_key(&self, shape: u32, number: usize) -> Option<u32>
        ensures { result ≡ (tables_by self.now).part_key shape number }
    {
        self.part_keys.get(shape as usize)?.get(number).copied()
    }

    /// The declared type with this number.
    #[tactic(auto, unfolding(crate::specs::Knowledge::tables_by))]
    pub fn shape(&self, number: u32) -> Option<&Shape>
        ensures { option_copied result ≡ slice_get (tables_by self.now).world.shapes number }
    {
        self.world.shapes.list().get(number as usize)
    }

    /// The global variable with this number.
    #[tactic(auto, unfolding(crate::specs::Knowledge::tables_by))]
    pub fn global(&self, number: u32) -> Option<&GlobalVar>
        ensures { option_copied result ≡ slice_get (tables_by self.now).world.globals number }
    {
        self.world.globals.get(number as usize)
    }

    /// The function with this number among the functions of the declarations.
    #[tactic(auto, unfolding(crate::specs::Knowledge::tables_by))]
    pub fn func(&self, number: usize) -> Option<&Signature>
        ensures { option_copied result ≡ slice_get (tables_by self.now).world.funcs number }
    {
        self.world.funcs.get(number)
    }

    /// The function, method or initialiser whose declaration has this key.
    #[tactic(auto, unfolding(crate::specs::Knowledge::tables_by, sw_isolation_rules::specs::Programs::func_at))]
    pub fn func_with(&self, key: u32) -> Option<&Signature>
        ensures { option_copied result
            ≡ func_at (tables_by self.now).world (tables_by self.now).answers key }
    {
        self.world.funcs.get(self.world.numbers.get(key)?)
    }

    /// The initialiser of the class or actor with this number.
    #[tactic(auto, unfolding(crate::specs::Knowledge::tables_by, sw_isolation_rules::specs::Programs::func_at, sw_isolation_rules::specs::Uses::maker_at))]
    pub fn maker(&self, shape: u32) -> Option<&Signature>
        ensures { option_copied result ≡ maker_at (tables_by self.now).world shape }
    {
        let key = *self.world.makers.get(shape as usize)?;
        self.func_with(key)
    }

    /// The number of the declared type of the expression with this key.
    #[tactic(auto, unfolding(crate::specs::Knowledge::tables_by))]
    pub fn shape_of(&self, key: u32) -> Option<u32>
        ensures { result ≡ named_shape ((tables_by self.now).answers.type_at key) }
    {
        match self.type_at(key) {
            Some(Ty::Named(shape)) => Some(*shape),
            Some(Ty::Int | Ty::Bool | Ty::Unit | Ty::Func { .. } | Ty::Task(_)) | None => None,
        }
    }

    /// The key of `self` in a member of the type with this number: the word of the type.
    #[tactic(auto, unfolding(crate::specs::Knowledge::tables_by, sw_lower_rules::specs::Uses::self_key))]
    pub fn self_key(&self, owner: Option<u32>) -> Option<u32>
        ensures { result ≡ self_key (tables_by self.now) owner }
    {
        Some(self.shape(owner?)?.at)
    }

    /// Whether a variable is `self` in a member of the type with this number.
    #[tactic(auto, unfolding(crate::specs::Knowledge::tables_by))]
    pub fn is_self(&self, owner: Option<u32>, key: u32) -> bool
        ensures { result ≡ is_among (self_of (tables_by self.now).world owner) key }
    {
        self.self_key(owner) == Some(key)
    }
}
