//! A solver of data-flow problems over any lattice of finite height.
//!
//! A `Lattice` is a set of values with an order, a least upper bound and a height; a `Flow` is a
//! graph of points with an entry value and a monotone step at each point. `solve` gives the least
//! annotation of the points that is closed under the entry and the steps: it keeps a list of the
//! points whose value rose, and each of its joins is counted by the `Steps` that it is handed. A
//! solution for blocks of points gives one for the points. The crate knows nothing of regions.
#![tactic(auto)]

mod answer;
mod counter;
mod laws;
mod order;
mod problem;
mod waiting;
mod worklist;

pub use answer::Solution;
pub use counter::Steps;
pub use laws::chains_are_short;
pub use order::Lattice;
pub use problem::Flow;
pub use worklist::solve;
