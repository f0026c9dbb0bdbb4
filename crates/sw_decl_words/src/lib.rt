//! What words mean in declarations: which words name types and global actors at top level, what
//! written types mean, the members of types by name, the types that are evident from first values,
//! and the shapes that declarations make. Of the rules that a program may break it knows two
//! things: which words name no type (E302), and which words can't be declared (E301).
#![tactic(auto)]

mod evidence;
mod members;
mod placed;
mod shaped;
mod type_words;
mod words;

pub use evidence::{case_type, enum_of, evident, made_type, seen};
pub use members::{Member, MemberKey, Members, Role};
pub use placed::{Placed, first_of};
pub use shaped::{prop_type, shapes_of, written_actor};
pub use type_words::{bad_words, type_of};
pub use words::{MAIN_ACTOR, Meaning, Words, is_reserved, shapes_made, word_of};
