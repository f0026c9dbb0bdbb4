//! What holds of the trees of texts besides what their types say, as definitions with their laws:
//! they have neither of two forms that no text writes (a parameter of a task's body, a chain
//! without an operator), and a global variable has a first value. How large they are stands here
//! too. It knows nothing of texts or of the grammar.
#![tactic(auto)]

mod laws;

pub use laws::{globals_need_values, sizes_add_up, written_trees_lack_two_forms};
