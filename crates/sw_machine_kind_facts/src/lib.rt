//! Laws, without code, on every state that items lead the machine to: each value has the kind of
//! its place, so that no running job is ever stuck. The crate knows nothing of how a step is taken,
//! of races or of regions.
#![tactic(auto)]

mod laws;

pub use laws::{
    annotations_show_supplies, constants_rule_out_ways, graphs_are_supplied, kinded_states_fit,
    machine_is_never_stuck, steps_keep_kinds, supplies_are_needed,
};
