//! Laws, without code, on what is kept from step to step beside a sound view: that cells and globals
//! hold what is their own, that each frame has a colour for its `Here`, and that what waits may.
//! `specs/Secure.antt` has the invariant, `specs/Painting.antt` what an effect does to colours.
//!
//! The crate knows nothing of which instruction has an effect.
#![tactic(auto)]

mod laws;

pub use laws::secure_states_have_heres;
