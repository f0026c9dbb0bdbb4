//! The parser of expressions, statements and blocks, nests and all, and with it the parser of
//! programs. The functions of `sw_parse_expr` and `sw_parse_stmt` read one nest; this crate hands
//! them themselves for the nests further in. It reads programs, and the block, expression or type
//! with which a list of tokens begins. Of the grammar it knows only which tokens go on with an
//! expression or a type, and it knows nothing of what trees mean.
#![tactic(auto)]

mod fronts;
mod laws;
mod nests;
mod parser;
mod parts;
mod phrases;
mod programs;

pub use fronts::{body, body_of, value, written_type};
pub use laws::tokens_have_one_front;
pub use programs::program;
pub use sw_parse_decl::ParseFault;
