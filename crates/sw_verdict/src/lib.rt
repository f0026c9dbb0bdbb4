//! The verdict on a program's text: its phases in order, the graph of a text in which none of those
//! up to the size of functions finds a breach, and the races in it. It knows what each phase requires
//! of a text. It knows nothing of files, of commands or of how a
//! verdict is written.
#![tactic(auto)]

mod judging;
mod laws;
mod names;
mod phases;

pub use judging::{Judged, NamedGraph, judge, judge_sharing, lower_text};
pub use laws::{
    accepted_graphs_pass, global_actors_have_names, texts_have_one_graph, texts_have_one_verdict,
    texts_without_breaches_are_accepted,
};
pub use phases::Refusal;
