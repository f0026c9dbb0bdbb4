ghost use Rattle.std.specs.Prelude.{◌≡◌, slice_get};
ghost use Rattle.std.specs.Option.{option_copied};
ghost use Rattle.sw_isolation_rules.specs.Uses.{maker_at, named_shape};
ghost use Rattle.sw_tree_arena.specs.Sites.{facts_at};
ghost use Rattle.sw_tree_work.specs.Facts.{self_key};

use std::alloc::Global;
use sw_decls::Signature;
use sw_isolation_rules::Capture;
use sw_lower_known::Known;
use sw_types::{CallKind, Iso, Shape, Ty};
use sw_typing_rules::Meaning;

/// Where work is laid: what is known of the program, and by its number the type around, in a member
/// of one.
pub struct Site<'a> {
    pub alloc: Global,
    pub known: &'a Known<'a>,
    pub owner: Option<u32>,
}

impl<'a> Site<'a> {
    /// The type of the expression, place or variable with this key.
    #[tactic(auto, unfolding(crate::specs::Sites::facts_by))]
    pub fn type_at(&self, key: u32) -> Option<&Ty>
        ensures { option_copied result ≡ (facts_at self.now).answers.type_at key }
    {
        self.known.type_at(key)
    }

    /// What the name, member or call with this key means.
    #[tactic(auto, unfolding(crate::specs::Sites::facts_by))]
    pub fn meaning_at(&self, key: u32) -> Option<Meaning>
        ensures { result ≡ (facts_at self.now).answers.meaning_at key }
    {
        self.known.meaning_at(key)
    }

    /// How the call or the crossing read with this key crosses.
    #[tactic(auto, unfolding(crate::specs::Sites::facts_by))]
    pub fn kind_at(&self, key: u32) -> Option<CallKind>
        ensures { result ≡ (facts_at self.now).kind_at key }
    {
        self.known.kind_at(key)
    }

    /// The isolation of the body with this key.
    #[tactic(auto, unfolding(crate::specs::Sites::facts_by))]
    pub fn iso_at(&self, key: u32) -> Iso
        ensures { result ≡ (facts_at self.now).iso_at key }
    {
        match self.known.body_at(key) {
            None => Iso::Free,
            Some(body) => body.iso,
        }
    }

    /// What the closure or task with this key captures, in order.
    #[tactic(auto, unfolding(crate::specs::Sites::facts_by))]
    pub fn captures_of(&self, key: u32) -> &[Capture]
        ensures { result.now ≡ (facts_at self.now).captures_of key }
    {
        self.known.captures_of(key)
    }

    /// Whether the variable whose declaration has this key is kept in a box.
    #[tactic(auto, unfolding(crate::specs::Sites::facts_by))]
    pub fn is_boxed(&self, key: u32) -> bool
        ensures { result ≡ (facts_at self.now).is_boxed key }
    {
        self.known.is_boxed(key)
    }

    /// The declared type with this number.
    #[tactic(auto, unfolding(crate::specs::Sites::facts_by))]
    pub fn shape(&self, number: u32) -> Option<&Shape>
        ensures { option_copied result ≡ slice_get (facts_at self.now).world.shapes number }
    {
        self.known.shape(number)
    }

    /// The function with this number among the functions of the declarations.
    #[tactic(auto, unfolding(crate::specs::Sites::facts_by))]
    pub fn func(&self, number: usize) -> Option<&Signature>
        ensures { option_copied result ≡ slice_get (facts_at self.now).world.funcs number }
    {
        self.known.func(number)
    }

    /// The initialiser of the class or actor with this number.
    #[tactic(auto, unfolding(crate::specs::Sites::facts_by))]
    pub fn maker(&self, shape: u32) -> Option<&Signature>
        ensures { option_copied result ≡ maker_at (facts_at self.now).world shape }
    {
        self.known.maker(shape)
    }

    /// The number of the declared type of the expression with this key.
    #[tactic(auto, unfolding(crate::specs::Sites::facts_by))]
    pub fn shape_of(&self, key: u32) -> Option<u32>
        ensures { result ≡ named_shape ((facts_at self.now).answers.type_at key) }
    {
        self.known.shape_of(key)
    }

    /// The key of `self` in a member of the type around: the word of the type.
    #[tactic(auto, unfolding(crate::specs::Sites::facts_by, sw_lower_rules::specs::Uses::self_key))]
    pub fn self_key(&self) -> Option<u32>
        ensures { result ≡ self_key (facts_at self.now) self.now.owner }
    {
        self.known.self_key(self.owner)
    }
}
