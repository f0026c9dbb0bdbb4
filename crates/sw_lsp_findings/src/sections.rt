//! The sections of docs/examples.md, in the order of their codes.
// bench/sections writes this file. Change the page instead.

/// The title of each section, and the part of an address that leads to it.
pub const HEADINGS: [(u16, &str, &str); 39] = [
    (101, "file is not UTF-8", "e101-file-is-not-utf-8"),
    (102, "comment is not closed", "e102-comment-is-not-closed"),
    (
        103,
        "integer literal is too large",
        "e103-integer-literal-is-too-large",
    ),
    (
        104,
        "character outside the profile",
        "e104-character-outside-the-profile",
    ),
    (105, "too many tokens", "e105-too-many-tokens"),
    (201, "unexpected token", "e201-unexpected-token"),
    (202, "nested too deeply", "e202-nested-too-deeply"),
    (301, "name is declared twice", "e301-name-is-declared-twice"),
    (302, "unknown type", "e302-unknown-type"),
    (
        303,
        "value type holds itself",
        "e303-value-type-holds-itself",
    ),
    (304, "not exactly one entry", "e304-not-exactly-one-entry"),
    (305, "property has no value", "e305-property-has-no-value"),
    (
        306,
        "initial value outside the profile",
        "e306-initial-value-outside-the-profile",
    ),
    (307, "more than 64 parts", "e307-more-than-64-parts"),
    (401, "unknown name", "e401-unknown-name"),
    (402, "types do not fit", "e402-types-do-not-fit"),
    (403, "arguments do not fit", "e403-arguments-do-not-fit"),
    (
        404,
        "cannot assign to a constant",
        "e404-cannot-assign-to-a-constant",
    ),
    (
        405,
        "switch does not fit its enum",
        "e405-switch-does-not-fit-its-enum",
    ),
    (
        406,
        "a way ends without a result",
        "e406-a-way-ends-without-a-result",
    ),
    (407, "no such member", "e407-no-such-member"),
    (408, "nothing to leave here", "e408-nothing-to-leave-here"),
    (
        501,
        "isolated member used from outside",
        "e501-isolated-member-used-from-outside",
    ),
    (502, "await is missing", "e502-await-is-missing"),
    (
        503,
        "asynchronous call in a synchronous body",
        "e503-asynchronous-call-in-a-synchronous-body",
    ),
    (
        504,
        "written from outside its actor",
        "e504-written-from-outside-its-actor",
    ),
    (
        505,
        "global variable is not isolated",
        "e505-global-variable-is-not-isolated",
    ),
    (
        510,
        "more than 512 registers",
        "e510-more-than-512-registers",
    ),
    (511, "more than 16384 points", "e511-more-than-16384-points"),
    (601, "Sendable is not met", "e601-sendable-is-not-met"),
    (
        602,
        "captured value is not Sendable",
        "e602-captured-value-is-not-sendable",
    ),
    (
        603,
        "captured variable is mutable",
        "e603-captured-variable-is-mutable",
    ),
    (604, "result is not Sendable", "e604-result-is-not-sendable"),
    (
        605,
        "task result is not Sendable",
        "e605-task-result-is-not-sendable",
    ),
    (
        606,
        "property is not Sendable",
        "e606-property-is-not-sendable",
    ),
    (
        701,
        "used after being given away",
        "e701-used-after-being-given-away",
    ),
    (
        702,
        "value is isolated to an actor",
        "e702-value-is-isolated-to-an-actor",
    ),
    (
        703,
        "value is isolated to this task",
        "e703-value-is-isolated-to-this-task",
    ),
    (
        704,
        "result is not disconnected",
        "e704-result-is-not-disconnected",
    ),
];

/// The rules.
pub const RULES: [(u16, &str); 39] = [
    (
        101,
        "a program is text in UTF-8. The position is the end of the longest prefix that is UTF-8.",
    ),
    (
        102,
        "each `/*` has its `*/`. Such comments nest, as in Swift.",
    ),
    (
        103,
        "an integer has 64 bits with a sign, so that a literal is at most 9223372036854775807.",
    ),
    (
        104,
        "each character belongs to a token, a comment or white space. The language has no strings, so a `\"` belongs to none.",
    ),
    (105, "a program has at most 65,536 tokens."),
    (
        201,
        "the tokens spell a program by the grammar. The position is the first token with which no program goes on.",
    ),
    (
        202,
        "at most 128 constructs are open at a token: brackets, braces, the `<` of types, results of function types, members.",
    ),
    (
        301,
        "a name is declared once in its scope. So functions aren't overloaded, a type has one initialiser at most, and `Int`, `Bool`, `Void`, `Never`, `Task`, `Sendable`, `MainActor` and `print` keep their meaning.",
    ),
    (
        302,
        "a type is `Int`, `Bool`, `Void`, a struct, enum, class or actor of the program, a function type, or `Task<T, Never>`. An `@` before a declaration or a closure has the word of a global actor.",
    ),
    (
        303,
        "no struct or enum holds itself, through its properties and payloads of structs and enums. A class is a reference, and may.",
    ),
    (
        304,
        "a program has one entry, `@main struct NAME` with its function `main`.",
    ),
    (
        305,
        "each property of a class or an actor gets a value where it is declared or in the initialiser.",
    ),
    (
        306,
        "the first value of a property or a global variable, and what an initialiser assigns, is *simple*: literals, operators, members, calls of types such as `Box()`, and cases of enums, in an initialiser also its parameters. If no type is written, the value is a literal, a call of a type or a case. An initialiser has statements `self.p = e` alone, one for each property without a first value.",
    ),
    (
        307,
        "a struct, an enum, a class or an actor has at most 64 parts. A struct in it counts with all of its own.",
    ),
    (
        401,
        "a word that is used means a variable, a parameter, a member of the type around, or something at top level. `self` stands in a type, and a capture list has variables and parameters of bodies alone.",
    ),
    (
        402,
        "operands, arguments, results, conditions and assigned values have the types that are expected. Nothing is converted, except that a `@Sendable` function may go where one without this mark is expected.",
    ),
    (
        403,
        "a call has as many arguments as the function has parameters, in their order and with their labels. A struct is made with all its properties by name. `print` takes one value or more, without labels.",
    ),
    (
        404,
        "outside of an initialiser, what is assigned is a `var`: not a `let`, a parameter, a pattern, a word of a capture list, or a property in a method of its struct. Of an object or an actor only the `var`s can be assigned.",
    ),
    (
        405,
        "a `switch` is over an enum. It has an arm for each case, or a `default`, and an arm has no patterns or one for each value of the case.",
    ),
    (
        406,
        "a body that gives a result is one expression, or returns the result on each path through it.",
    ),
    (
        407,
        "a member is declared in its type. A method and a case with values are called, a case without values isn't. Of a task there is `value` alone.",
    ),
    (
        408,
        "a `break` stands in a `while` or a `switch` of its own body, a `continue` in a `while` of it.",
    ),
    (
        501,
        "a synchronous body uses what is isolated to its own actor, and of its actor's members those of `self` alone (SE-0306). What is isolated to another actor needs an `await`, and a synchronous body has none.",
    ),
    (
        502,
        "in an asynchronous body an `await` covers each asynchronous call, each call and each read of a `var` that leaves the body's actor, the `value` of a task, and `Task.yield()`.",
    ),
    (
        503,
        "asynchronous calls, the `value` of a task and `Task.yield()` stand in functions with `async` and in tasks. Closures are synchronous.",
    ),
    (
        504,
        "a property or a global variable that is isolated to an actor is assigned by what runs on this actor (SE-0306). An `await` doesn't help.",
    ),
    (
        505,
        "a global variable has a global actor (SE-0316), or is a `let` of a Sendable type (SE-0412).",
    ),
    (
        510,
        "a body needs at most 512 registers: one for each value that it takes or makes, and one for each variable that it declares. `print(1)` makes two values.",
    ),
    (
        511,
        "a body has at most 16,384 points: its instructions, and one for the end of each block.",
    ),
    (
        601,
        "a type that declares `Sendable` keeps what it declares (SE-0302): all parts of a struct or an enum are Sendable, and a class without a global actor has `let`s of Sendable types alone.",
    ),
    (
        602,
        "a `@Sendable` closure may run anywhere, so the values that it captures are Sendable (SE-0302).",
    ),
    (
        603,
        "a `@Sendable` closure captures no `var`, except by a capture list, which gives it the value (SE-0302).",
    ),
    (
        604,
        "what a call or a read brings out of an actor is Sendable (SE-0302) or a `sending` result (SE-0430), since the actor might keep what it gives.",
    ),
    (
        605,
        "what a task gives is Sendable (SE-0302), since all that await its `value` get it.",
    ),
    (
        606,
        "a `let` of an actor, or of a global actor, is read from outside without an `await`, but only if it is Sendable (SE-0302, SE-0306).",
    ),
    (
        701,
        "a value that isn't Sendable, and all that is in its region, is used no more after it was given away: to a task that captures it, or as an argument that is `sending` or goes to an actor (SE-0414, SE-0430). The note has the place that gave it away.",
    ),
    (
        702,
        "a body that runs on an actor gives away nothing that the actor may hold: what is read from its properties, its parameters that aren't `sending`, and what was stored into these (SE-0414). Nor does it lend such a value to an asynchronous function that runs on no actor.",
    ),
    (
        703,
        "a body that runs on no actor, or where its caller runs, gives away nothing that its caller may hold: its parameters that aren't `sending`, what it captures, and what was stored into these (SE-0414, SE-0430).",
    ),
    (
        704,
        "a `sending` result is held by nobody else: it is no parameter that isn't `sending`, nothing that is read from an actor, and nothing that was stored into these (SE-0430).",
    ),
];

/// What mends a breach.
pub const MENDS: [(u16, &str); 39] = [
    (
        101,
        "save the file as UTF-8, for example with `iconv -f latin1 -t utf-8`.",
    ),
    (102, "close the comment, or write it with `//`."),
    (
        103,
        "use a smaller number. There is no integer type but `Int`.",
    ),
    (
        104,
        "leave the character out. `print` writes Ints and Bools.",
    ),
    (
        105,
        "shorten the program. It is one file, and can't be spread over several.",
    ),
    (
        201,
        "compare the construct with the grammar in docs/language.md. The table after it lists forms of Swift that this language doesn't have, and what stands in their place.",
    ),
    (
        202,
        "give an inner expression to a variable, or put inner statements into a function.",
    ),
    (301, "give one of the two another name."),
    (302, "declare the type, or use one of those above."),
    (303, "make one of the types a class."),
    (304, "add an entry, or remove the second one."),
    (
        305,
        "write `var count = 0`, or let the initialiser assign `self.count`.",
    ),
    (
        306,
        "write the type. What a function has to compute is assigned later, by a body that runs.",
    ),
    (
        307,
        "put some parts into a class, which counts as one part wherever it stands.",
    ),
    (
        401,
        "declare the name before it is used, or correct it. A variable is visible after its statement, in its block.",
    ),
    (
        402,
        "give a value of the expected type, or declare another type.",
    ),
    (
        403,
        "write the labels as the declaration has them; `_` stands for none.",
    ),
    (404, "declare a `var`, or copy the value into one."),
    (
        405,
        "write the arm that is missing, or `default`. For an Int or a Bool use `if`.",
    ),
    (
        406,
        "end the body with a `return`, or with an `if` whose last part is an `else`. What conditions mean isn't looked at.",
    ),
    (407, "correct the word, or declare the member."),
    (
        408,
        "leave the loop in the body that has it. To leave a function or a closure write `return`.",
    ),
    (
        501,
        "make the body `async`, and put an `await` before the use.",
    ),
    (
        502,
        "put an `await` at the beginning of the expression or of the argument. It covers all that follows, except the bodies of closures and tasks.",
    ),
    (
        503,
        "make the function `async`, or put the call into a `Task { .. }`.",
    ),
    (
        504,
        "let a method of the actor assign it, and call that with `await`.",
    ),
    (
        505,
        "put a global actor before the variable, and before the functions that use it; or make the variable a `let` of a Sendable type.",
    ),
    (510, "divide the body into several functions."),
    (511, "divide the body into several functions."),
    (
        601,
        "give the type Sendable parts, and a class `let`s alone; or put a global actor before the class; or make it an actor.",
    ),
    (
        602,
        "capture a Sendable part of the value, as `n` here; or make the class an actor.",
    ),
    (
        603,
        "list the variable, `{ [n] in .. }`. A closure that would change it gives a result back instead.",
    ),
    (
        604,
        "put `sending` before the result, if the actor doesn't keep it; otherwise give a struct of Sendable parts.",
    ),
    (605, "let the task give a result of Sendable parts."),
    (
        606,
        "let a method of the actor read it, and give what is wanted.",
    ),
    (
        701,
        "use the value before it is given away, or let the task give back what is wanted. Make what several jobs change an actor.",
    ),
    (
        702,
        "give away what is Sendable in it; or make the function that borrows it `nonisolated(nonsending)`.",
    ),
    (
        703,
        "put `sending` before the parameter. Then each caller gives its argument away.",
    ),
    (
        704,
        "return a new object, or put `sending` before the parameter that is returned.",
    ),
];
