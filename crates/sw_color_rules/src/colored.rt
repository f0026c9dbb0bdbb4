use crate::colors::Colors;
use sw_value::State;

/// A state of the machine with the colours of its cells and frames.
#[derive(Debug, Drop)]
pub struct Colored {
    pub state: State,
    pub colors: Colors,
}
