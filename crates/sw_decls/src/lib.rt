//! What a program declares: its shapes, global actors, functions and global variables, and what its
//! words mean; or the first breach of the rules on declarations (E301 to E307). It finds for itself
//! the types that hold themselves (E303) and those with more than 64 parts (E307), and puts all
//! breaches in order. It knows nothing of the types of expressions, except of those that are
//! evident from a first value.
#![tactic(auto)]

mod declaring;
mod holders;
mod hollow;
mod laws;
mod ordered;
mod signature;
mod wide;

pub use declaring::{DeclFault, Decls, declare};
pub use laws::programs_have_one_first_breach;
pub use ordered::Numbers;
pub use signature::{
    AsyncDefault, GlobalList, GlobalVar, Param, ParamList, Signature, SignatureList, actor_iso,
    label_id,
};
