//! What each code means, and what usually mends a breach of it.

ghost use Rattle.std.specs.Prelude.{◌≡◌, ◌==◌, [], find, option_map, unwrap_or};
ghost use Rattle.sw_breach.specs.Codes.{text_of};
ghost use Rattle.sw_see_breaches.specs.Remedies.{remedy_of};

/// A code, what it means, and what mends a breach of it.
type Row = (u16, &'static str, &'static str);

/// All codes.
const ROWS: [Row; 39] = [
    (101, "file is not UTF-8", "save the file as UTF-8."),
    (
        102,
        "comment is not closed",
        "close the comment, or write it with `//`.",
    ),
    (103, "integer literal is too large", "use a smaller number."),
    (
        104,
        "character outside the profile",
        "leave the character out.",
    ),
    (105, "too many tokens", "shorten the program."),
    (
        201,
        "unexpected token",
        "compare the construct with the grammar.",
    ),
    (
        202,
        "nested too deeply",
        "give an inner expression to a variable, or put inner statements into a function.",
    ),
    (
        301,
        "name is declared twice",
        "give one of the two another name.",
    ),
    (302, "unknown type", "declare the type, or use another one."),
    (
        303,
        "value type holds itself",
        "make one of the types a class.",
    ),
    (
        304,
        "not exactly one entry",
        "add an entry, or remove the second one.",
    ),
    (
        305,
        "property has no value",
        "write a value, as `var count = 0`, or let the initialiser assign it.",
    ),
    (306, "initial value outside the profile", "write the type."),
    (
        307,
        "more than 64 parts",
        "put some parts into a class, which counts as one part.",
    ),
    (
        401,
        "unknown name",
        "declare the name before it is used, or correct it.",
    ),
    (
        402,
        "types do not fit",
        "give a value of the expected type, or declare another type.",
    ),
    (
        403,
        "arguments do not fit",
        "write the labels as the declaration has them.",
    ),
    (
        404,
        "cannot assign to a constant",
        "declare a `var`, or copy the value into one.",
    ),
    (
        405,
        "switch does not fit its enum",
        "write the arm that is missing, or `default`.",
    ),
    (
        406,
        "a way ends without a result",
        "end the body with a `return`, or with an `if` whose last part is an `else`.",
    ),
    (
        407,
        "no such member",
        "correct the word, or declare the member.",
    ),
    (
        408,
        "nothing to leave here",
        "leave the loop in the body that has it.",
    ),
    (
        501,
        "isolated member used from outside",
        "make the body `async`, and put an `await` before the use.",
    ),
    (
        502,
        "await is missing",
        "put an `await` at the beginning of the expression or of the argument.",
    ),
    (
        503,
        "asynchronous call in a synchronous body",
        "make the function `async`, or put the call into a `Task { .. }`.",
    ),
    (
        504,
        "written from outside its actor",
        "let a method of the actor assign it, and call that with `await`.",
    ),
    (
        505,
        "global variable is not isolated",
        "put a global actor before the variable, and before the functions that use it.",
    ),
    (
        510,
        "more than 512 registers",
        "divide the body into several functions.",
    ),
    (
        511,
        "more than 16384 points",
        "divide the body into several functions.",
    ),
    (
        601,
        "Sendable is not met",
        "give the type Sendable parts, and a class `let`s alone.",
    ),
    (
        602,
        "captured value is not Sendable",
        "capture a Sendable part of the value.",
    ),
    (
        603,
        "captured variable is mutable",
        "list the variable, as `{ [n] in .. }`.",
    ),
    (
        604,
        "result is not Sendable",
        "put `sending` before the result, if the actor doesn't keep it.",
    ),
    (
        605,
        "task result is not Sendable",
        "let the task give a result of Sendable parts.",
    ),
    (
        606,
        "property is not Sendable",
        "let a method of the actor read it, and give what is wanted.",
    ),
    (
        701,
        "used after being given away",
        "use the value before it is given away, or let the task give back what is wanted.",
    ),
    (
        702,
        "value is isolated to an actor",
        "give away what is Sendable in it.",
    ),
    (
        703,
        "value is isolated to this task",
        "put `sending` before the parameter.",
    ),
    (
        704,
        "result is not disconnected",
        "return a new object, or put `sending` before the parameter that is returned.",
    ),
];

/// What the first row of this code means.
fn meaning_in(rows: &[Row], code: u16) -> Option<&'static str>
    ensures { option_map (λ text. text.now) result
        ≡ option_map (λ row. row.1.now) (find (λ row. row.0 == code) rows.now) }
{
    rows.iter().find(|row| row.0 == code).map(|row| row.1)
}

/// What mends a breach, by the first row of its code.
fn remedy_in(rows: &[Row], code: u16) -> Option<&'static str>
    ensures { option_map (λ text. text.now) result
        ≡ option_map (λ row. row.2.now) (find (λ row. row.0 == code) rows.now) }
{
    rows.iter().find(|row| row.0 == code).map(|row| row.2)
}

/// What a code means; nothing where the number is no code.
#[tactic(auto, unfolding(sw_breach::specs::Codes::text_of))]
pub fn meaning_of(code: u16) -> &'static str
    ensures { result.now ≡ unwrap_or (text_of code) [] }
{
    let rows: [Row; 39] = ROWS;
    meaning_in(rows.as_slice(), code).unwrap_or("")
}

/// What mends a breach of a code; nothing where the number is no code.
#[tactic(auto, unfolding(crate::specs::Remedies::remedy_of))]
pub fn remedy_of(code: u16) -> &'static str
    ensures { result.now ≡ unwrap_or (remedy_of code) [] }
{
    let rows: [Row; 39] = ROWS;
    remedy_in(rows.as_slice(), code).unwrap_or("")
}
