use sw_list::ListOf;

/// Operations in order.
pub type OpList = ListOf<Op>;

/// The code where a body of an actor gives away what is with `Here`.
pub const ISOLATED_TO_ACTOR: u16 = 702;

/// The code where a body of no actor gives away what is with `Here`.
pub const ISOLATED_TO_TASK: u16 = 703;

/// The code where a `sending` result is with `Here`.
pub const NOT_DISCONNECTED: u16 = 704;

/// An operation on a region state. `x` and `y` are elements, `at` is the byte offset of the operand
/// that is tested, and `site` that of the instruction that gives an element away.
#[derive(Clone, Copy, Debug, PartialEq, Eq)]
pub enum Op {
    /// A test that the element wasn't given away.
    Need { x: u32, at: u32 },
    /// A test that the element wasn't given away and isn't with `Here`; `code` is what is wrong
    /// where it is with `Here`.
    Free { x: u32, at: u32, code: u16 },
    /// The element leaves its region.
    Fresh { x: u32 },
    /// The element becomes as another one.
    Put { x: u32, y: u32 },
    /// The regions of the two unite.
    Join { x: u32, y: u32 },
    /// The region of the element is given away.
    Give { x: u32, site: u32 },
}
