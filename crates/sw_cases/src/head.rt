/// How the lines of a file in a case file are its bytes.
#[derive(Clone, Copy)]
pub enum Form {
    /// They are the bytes.
    Lines,
    /// They are the bytes with a line feed after them.
    Open,
    /// They are the bytes in hexadecimal.
    Hex,
}

/// What a line that begins with `---- ` begins.
#[derive(Clone, Copy)]
pub enum Head<'a> {
    /// The reply of a call with this exit status.
    Exit(u8),
    /// The numbers of the fetches that fail.
    Fetches,
    /// The numbers of the puts that fail, into a sink with this room that writes at most `step`
    /// bytes in a put.
    Puts {
        step: usize,
        room: usize,
    },
    /// The text of a file, which is repeated.
    File {
        name: &'a str,
        times: usize,
        form: Form,
    },
}

/// The part before the first blank, and the part after it.
fn cut(text: &str) -> (&str, &str) {
    match text.split_once(' ') {
        Some(parts) => parts,
        None => (text, ""),
    }
}

/// The form of a name of a form.
fn form_of(name: &str) -> Option<Form> {
    match name {
        "" => Some(Form::Lines),
        "open" => Some(Form::Open),
        "hex" => Some(Form::Hex),
        _ => None,
    }
}

/// How often a text is repeated, and its form.
fn times_and_form(text: &str) -> Option<(usize, Form)> {
    let Some(counted) = text.strip_prefix("times ") else {
        return Some((1, form_of(text)?));
    };
    let (times, form) = cut(counted);
    Some((times.parse::<usize>().ok()?, form_of(form)?))
}

/// The most bytes of a put, and the room of the sink.
fn puts_of(text: &str) -> Option<Head<'_>> {
    let (step, room) = cut(text);
    let step = step.parse::<usize>().ok()?;
    let room = room.parse::<usize>().ok()?;
    Some(Head::Puts { step, room })
}

/// What a line begins, without the `---- ` and the line feed; `None` where it has no such form.
pub fn head_of(line: &str) -> Option<Head<'_>> {
    let (name, rest) = cut(line);
    match name {
        "exit" => Some(Head::Exit(rest.parse::<u8>().ok()?)),
        "fetches" => Some(Head::Fetches),
        "puts" => puts_of(rest),
        _ => {
            let (times, form) = times_and_form(rest)?;
            Some(Head::File { name, times, form })
        }
    }
}
