ghost use Rattle.std.specs.Prelude.{◌≡◌};

use crate::outcome::Program;

/// How many calls were made, and how many of them were wrong.
#[derive(Drop)]
pub struct Tally {
    /// The program that is called.
    pub program: Program,
    /// Whether each call should have the reply of its case.
    should_have_reply: bool,
    pub calls: u64,
    pub wrong: u64,
}

impl Tally {
    pub fn new(program: Program, should_have_reply: bool) -> Tally {
        Tally {
            program,
            should_have_reply,
            calls: 0,
            wrong: 0,
        }
    }

    /// Counts a call by whether it had the reply of its case, and returns whether that is right.
    pub fn count(&mut self, is_reply: bool) -> bool {
        let is_right = is_reply == self.should_have_reply;
        self.calls = self.calls.saturating_add(1);
        if !is_right {
            self.wrong = self.wrong.saturating_add(1);
        }
        is_right
    }
}
