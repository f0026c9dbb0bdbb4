use crate::colors::{ColorNumbers, Owner, Tint};

/// What becomes of the `Here` of frames.
#[derive(Clone, Copy, Debug)]
pub enum FrameChange {
    Stays,
    /// A frame is put on top of the job's, and its `Here` is this colour.
    Pushed { number: usize },
    /// A job is made with one frame, and its `Here` is this colour.
    Begun { number: usize },
    /// The job's top frame is taken off.
    Popped,
}

/// What an act does to colours.
#[derive(Debug, Drop)]
pub struct Plan {
    /// The owner of the colour that is made, if one is.
    pub fresh: Option<Owner>,
    /// What the cell that is made has to do with colours, if one is made.
    pub tint: Option<Tint>,
    pub frame: FrameChange,
    /// These colours become one.
    pub joined: ColorNumbers,
    /// The job that this one is handed over to.
    pub heir: Option<u32>,
}
