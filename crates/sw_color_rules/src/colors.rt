use crate::names::Names;
use sw_list::ListOf;

/// Who may reach memory.
#[derive(Clone, Copy, Debug, PartialEq, Eq)]
pub enum Owner {
    /// A job, by number.
    Job(u32),
    /// An actor, by the number of its cell.
    ActorOf(u32),
    /// A global actor, by number.
    Global(u32),
}

/// Numbers of colours in order.
pub type ColorNumbers = ListOf<usize>;

/// What a cell has to do with colours. A colour is given by the number with which it was made.
#[derive(Debug, Drop)]
pub enum Tint {
    /// A cell that every job may hold: an object of a class that is Sendable, or a task.
    Bare,
    /// A coloured cell: an object of another class, a box or an isolated closure.
    Colored { number: usize },
    /// An actor, which owns this colour.
    Owns { number: usize },
    /// A closure that isn't isolated: the colours that its captures had when it was made. This list
    /// takes memory for each closure of its own.
    Holds { numbers: ColorNumbers },
}

/// Owners in order.
pub type OwnerList = ListOf<Owner>;

/// The colours that were made, by number: which is left of each, since colours merge, and who owns
/// what is left.
#[derive(Debug, Drop)]
pub struct Palette {
    pub names: Names,
    pub owners: OwnerList,
}

/// What the cells of a state have to do with colours, by number.
pub type TintList = ListOf<Tint>;

/// For each job the colour of each of its frames' `Here`, from the bottom.
pub type HereList = ListOf<ColorNumbers>;

/// The colours of a state. Cells and frames keep the numbers that they were given; what became of a
/// number is for the palette to say.
#[derive(Debug, Drop)]
pub struct Colors {
    pub cells: TintList,
    pub palette: Palette,
    pub heres: HereList,
}
