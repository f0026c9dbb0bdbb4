//! Lists and boxes as fields of data types. Contracts see a `ListOf<T>` as the list of its items
//! and a `Boxed<T>` as the value that it holds, so equality of two trees that hold them compares
//! the trees and no address. Both are what a `Vec` and a `Box` are when the program runs. The crate
//! knows nothing of what the items mean.
#![tactic(auto)]

mod boxed;
mod list_of;

pub use boxed::Boxed;
pub use list_of::ListOf;
