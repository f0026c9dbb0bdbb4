//! Laws, without code, on the coloured machine by hue: what each change of colours by number comes
//! to for colours that name their owner, and that values have the same colours by number and by hue
//! where what is noted of cells fits them. `specs/Tinted.antt` says when it does.
//!
//! The crate knows nothing of when an item makes which change.
#![tactic(auto)]

mod laws;

pub use laws::{
    colours_are_made, givings_hand_over, merges_unite, new_tints_fit, same_colours_unite_alike,
    tints_go_on_to_fit, values_have_their_hues,
};
