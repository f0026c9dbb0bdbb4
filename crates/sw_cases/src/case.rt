ghost use Rattle.std.specs.Prelude.{◌≡◌, ℕ, List, ◌∷◌, map, string_bytes, codes, IfOk, IsTrue};

use crate::head::{Form, Head, head_of};
use std::alloc::{AllocError, Global};
use sw_check::Exit;

/// The room for a reply in bytes, where a case says nothing of it.
const ROOM: usize = 1_048_576;

/// A file of a call.
#[derive(Drop)]
pub struct CaseFile {
    pub name: String,
    pub bytes: Vec<u8>,
}

/// The sink of a call.
#[derive(Drop)]
pub struct Room {
    /// The most bytes of a put.
    pub step: usize,
    /// The most bytes that the sink holds.
    pub room: usize,
    /// The numbers of the puts that fail.
    pub fails: Vec<u64>,
}

/// A call of the tool, and a reply.
#[derive(Drop)]
pub struct Case {
    pub words: Vec<String>,
    pub files: Vec<CaseFile>,
    /// The numbers of the fetches that fail.
    pub fails: Vec<u64>,
    pub sink: Room,
    /// The exit status of the reply, where it is known.
    pub exit: Option<u8>,
    pub reply: Vec<u8>,
}

/// A line that begins a part of a case file, and the lines of the part.
#[derive(Drop)]
struct Section {
    head: String,
    body: String,
}

/// The parts of a case file. The first has no line before it.
fn sections(alloc: Global, text: &str) -> Result<Vec<Section>, AllocError> {
    let mut sections = Vec::new(alloc);
    let mut section = Section {
        head: String::new(alloc),
        body: String::new(alloc),
    };
    for line in text.split_inclusive('\n') {
        match line.strip_prefix("---- ") {
            Some(head) => {
                sections.push(section)?;
                section = Section {
                    head: String::from_str(alloc, head.strip_suffix('\n').unwrap_or(head))?,
                    body: String::new(alloc),
                };
            }
            None => section.body.push_str(line)?,
        }
    }
    sections.push(section)?;
    Ok(sections)
}

/// Adds bytes that are written in hexadecimal. It returns whether all of them are.
fn add_hexadecimal(bytes: &mut Vec<u8>, text: &str) -> Result<bool, AllocError> {
    for digits in text.split_ascii_whitespace() {
        let Ok(byte) = u8::from_str_radix(digits, 16) else {
            return Ok(false);
        };
        bytes.push(byte)?;
    }
    Ok(true)
}

/// Adds numbers that white space separates. It returns whether all of them are numbers.
fn add_numbers(numbers: &mut Vec<u64>, text: &str) -> Result<bool, AllocError> {
    for word in text.split_ascii_whitespace() {
        let Ok(number) = word.parse::<u64>() else {
            return Ok(false);
        };
        numbers.push(number)?;
    }
    Ok(true)
}

/// Adds the bytes of a part. It returns whether they have their form.
fn add_bytes(bytes: &mut Vec<u8>, text: &str, form: Form) -> Result<bool, AllocError> {
    match form {
        Form::Lines => bytes.extend_from_slice(text.as_bytes())?,
        Form::Open => {
            bytes.extend_from_slice(text.strip_suffix('\n').unwrap_or(text).as_bytes())?
        }
        Form::Hex => return add_hexadecimal(bytes, text),
    }
    Ok(true)
}

/// The words of a call, each of them a line.
pub fn words_of(alloc: Global, text: &str, separator: char) -> Result<Vec<String>, AllocError> {
    let mut words = Vec::new(alloc);
    for word in text.split_inclusive(separator) {
        let word = word.strip_suffix(separator).unwrap_or(word);
        words.push(String::from_str(alloc, word)?)?;
    }
    Ok(words)
}

/// Puts `trace` in the place of the first word where that is `run`, and returns whether it is. The
/// other words stay.
fn put_trace(alloc: Global, words: &mut Vec<String>) -> Result<bool, AllocError>
    ensures { IfOk result (λ is_put. IsTrue is_put → (others : List (List ℕ))
        × (map string_bytes words.old.items ≡ codes "run" ∷ others)
        × (map string_bytes words.new.items ≡ codes "trace" ∷ others)) }
{
    match words.first_mut() {
        Some(word) if word.as_str() == "run" => {
            *word = String::from_str(alloc, "trace")?;
            Ok(true)
        }
        _ => Ok(false),
    }
}

impl Case {
    /// The call of these words over no file, with the empty reply.
    pub fn new(alloc: Global, words: Vec<String>) -> Case {
        Case {
            words,
            files: Vec::new(alloc),
            fails: Vec::new(alloc),
            sink: Room {
                step: ROOM,
                room: ROOM,
                fails: Vec::new(alloc),
            },
            exit: None,
            reply: Vec::new(alloc),
        }
    }

    /// Adds bytes to the file of that name where it is the last one, or adds a file.
    fn add_to_file(&mut self, alloc: Global, name: &str, bytes: &[u8]) -> Result<(), AllocError> {
        if let Some(file) = self.files.last_mut() {
            if file.name.as_str() == name {
                file.bytes.extend_from_slice(bytes)?;
                return Ok(());
            }
        }
        let name = String::from_str(alloc, name)?;
        let bytes = Vec::from_slice(alloc, bytes)?;
        self.files.push(CaseFile { name, bytes })?;
        Ok(())
    }

    /// Adds a text to a file, a number of times. It returns whether the text has its form.
    fn add_text(
        &mut self,
        alloc: Global,
        name: &str,
        times: usize,
        form: Form,
        text: &str,
    ) -> Result<bool, AllocError> {
        let mut once = Vec::new(alloc);
        let has_form = add_bytes(&mut once, text, form)?;
        let mut bytes = Vec::new(alloc);
        for _ in 0..times {
            bytes.extend_from_slice(once.as_slice())?;
        }
        self.add_to_file(alloc, name, bytes.as_slice())?;
        Ok(has_form)
    }

    /// Adds a part of a case file. It returns whether the part has its form.
    fn add_section(&mut self, alloc: Global, section: &Section) -> Result<bool, AllocError> {
        let body = section.body.as_str();
        match head_of(section.head.as_str()) {
            Some(Head::Exit(status)) => {
                self.exit = Some(status);
                self.reply.extend_from_slice(body.as_bytes())?;
                Ok(true)
            }
            Some(Head::Fetches) => Ok(add_numbers(&mut self.fails, body)?),
            Some(Head::Puts { step, room }) => {
                self.sink.step = step;
                self.sink.room = room;
                Ok(add_numbers(&mut self.sink.fails, body)?)
            }
            Some(Head::File { name, times, form }) => {
                self.add_text(alloc, name, times, form, body)
            }
            None => Ok(false),
        }
    }

    /// Reads a case file. A text that isn't one is `None`.
    pub fn parse(alloc: Global, text: &str) -> Result<Option<Case>, AllocError> {
        let sections = sections(alloc, text)?;
        match sections.as_slice().split_first() {
            Some((words, others)) => Case::of_parts(alloc, words.body.as_str(), others),
            None => Ok(None),
        }
    }

    /// The call of these words with its other parts, where each has its form and one is a reply.
    fn of_parts(
        alloc: Global,
        words: &str,
        sections: &[Section],
    ) -> Result<Option<Case>, AllocError> {
        let mut case = Case::new(alloc, words_of(alloc, words, '\n')?);
        let have_form = case.add_sections(alloc, sections)?;
        if have_form && case.exit.is_some() {
            Ok(Some(case))
        } else {
            Ok(None)
        }
    }

    /// Adds parts of a case file. It returns whether each has its form.
    fn add_sections(&mut self, alloc: Global, sections: &[Section]) -> Result<bool, AllocError> {
        let mut have_form = true;
        for section in sections {
            have_form &= self.add_section(alloc, section)?;
        }
        Ok(have_form)
    }

    /// The same call with `trace` in the place of `run`, and the same reply. It is `None` where the
    /// call is no `run`, and where the reply is a refusal.
    pub fn traced(self, alloc: Global) -> Result<Option<Case>, AllocError> {
        let mut case = self;
        let is_refused = case.exit == Some(Exit::Breached.status());
        if !is_refused && put_trace(alloc, &mut case.words)? {
            Ok(Some(case))
        } else {
            Ok(None)
        }
    }
}
