ghost use Rattle.std.specs.Prelude.{◌≡◌, ◌==◌, Some, find, option_map};
ghost use Rattle.sw_breach.specs.Codes.{IsCode, text_of};

/// The code where something is used that was given away. Its breaches alone have a note.
pub const GIVEN_AWAY: u16 = 701;

/// All codes with their texts.
const TEXTS: [(u16, &str); 39] = [
    (101, "file is not UTF-8"),
    (102, "comment is not closed"),
    (103, "integer literal is too large"),
    (104, "character outside the profile"),
    (105, "too many tokens"),
    (201, "unexpected token"),
    (202, "nested too deeply"),
    (301, "name is declared twice"),
    (302, "unknown type"),
    (303, "value type holds itself"),
    (304, "not exactly one entry"),
    (305, "property has no value"),
    (306, "initial value outside the profile"),
    (307, "more than 64 parts"),
    (401, "unknown name"),
    (402, "types do not fit"),
    (403, "arguments do not fit"),
    (404, "cannot assign to a constant"),
    (405, "switch does not fit its enum"),
    (406, "a way ends without a result"),
    (407, "no such member"),
    (408, "nothing to leave here"),
    (501, "isolated member used from outside"),
    (502, "await is missing"),
    (503, "asynchronous call in a synchronous body"),
    (504, "written from outside its actor"),
    (505, "global variable is not isolated"),
    (510, "more than 512 registers"),
    (511, "more than 16384 points"),
    (601, "Sendable is not met"),
    (602, "captured value is not Sendable"),
    (603, "captured variable is mutable"),
    (604, "result is not Sendable"),
    (605, "task result is not Sendable"),
    (606, "property is not Sendable"),
    (701, "used after being given away"),
    (702, "value is isolated to an actor"),
    (703, "value is isolated to this task"),
    (704, "result is not disconnected"),
];

/// The text of a code.
#[tactic(auto, unfolding(crate::specs::Codes::text_of))]
pub fn text_of(code: u16) -> &'static str
    requires { IsCode code }
    ensures { text_of code ≡ Some result.now }
{
    let texts: [(u16, &str); 39] = TEXTS;
    text_in(texts.as_slice(), code).unwrap()
}

/// The text of the first row that has this code.
fn text_in(rows: &[(u16, &'static str)], code: u16) -> Option<&'static str>
    ensures { option_map (λ text. text.now) result
        ≡ option_map (λ row. row.1.now) (find (λ row. row.0 == code) rows.now) }
{
    rows.iter().find(|row| row.0 == code).map(|row| row.1)
}
