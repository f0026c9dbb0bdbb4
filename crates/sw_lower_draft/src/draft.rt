ghost use Rattle.std.specs.Prelude.{◌<◌, length};

use crate::numbers::NumberTable;
use sw_list::ListOf;
use sw_lower_builder::Builder;
use sw_lower_plans::Bound;

/// A function while code for it is made: what is made of it, the block that goes on, the variables
/// that are seen, and whether an instruction was dropped because the function had all its points.
#[derive(Drop)]
pub struct Draft<'a> {
    pub(crate) numbers: &'a NumberTable,
    pub(crate) builder: Builder,
    pub(crate) here: u32,
    pub(crate) vars: ListOf<Bound>,
    pub(crate) over: bool,
    ghost going: { here < length builder.blocks },
}
