//! What stands around what is read.

ghost use Rattle.std.specs.Prelude.{◌≡◌, option_map, bytes_eq, IfOk};
ghost use Rattle.std.specs.List.{list_any};
ghost use Rattle.sw_grammar.specs.Around.{after_tasks, index_in, returning, task_ids, with_break};
ghost use Rattle.sw_grammar.specs.Around.{without_break};
ghost use Rattle.sw_sugar.specs.Calls.{part_text, whole_text};
ghost use Rattle.sw_parse_parts.specs.Around.{known, nothing_around, tasks_here, with_here};

use super::tasks::{Tasks, id_in, is_among};
use std::alloc::{AllocError, Global};
use std::marker::Model;
use sw_sugar::{part_text, whole_text};
use sw_tree::Names;

/// What the parser knows of what stands around the tokens that it reads: the names of the program,
/// by which a word gets its id, and what a nest passes on to what stands in it.
#[derive(Drop)]
pub struct Around<'a> {
    names: &'a Names,
    wanted: Option<&'a str>,
    no_break: bool,
    /// The words that stand for tasks, and their ids.
    words: &'a [&'a str],
    ids: &'a [u32],
}

impl<'a> Model for Around<'a> {
    ghost use Rattle.std.specs.Prelude.{◌≡◌, map, option_map};
    ghost use Rattle.sw_grammar.specs.Around.{index_in};
    ghost use Rattle.sw_parse_parts.specs.Around.{Surroundings};

    ghost Value = { Surroundings };

    ghost view = { λ a. record {
      texts = a.names.now;
      here = record {
        wanted = option_map (λ text. text.now) a.wanted;
        no_break = a.no_break;
        tasks = map (λ word. word.now) a.words.now;
      };
    } };

    ghost invariant = { λ a. a.ids.now
        ≡ map (index_in a.names.now) (map (λ word. word.now) a.words.now) };
}

impl<'a> Around<'a> {
    /// Nothing stands around.
    pub fn new(names: &'a Names) -> Around<'a>
        ensures { result ≡ nothing_around names.now }
    {
        Around {
            names,
            wanted: None,
            no_break: false,
            words: &[],
            ids: &[],
        }
    }

    /// The same names, and nothing around.
    pub fn outermost<'b>(&'b self) -> Around<'b>
        ensures { result ≡ nothing_around self.now.texts }
    {
        Around::new(self.names)
    }

    /// The same in a body whose result is an optional of this word, or none where there is no word.
    pub fn returning<'b>(&'b self, wanted: Option<&'b str>) -> Around<'b>
        ensures { result ≡ with_here self.now (returning (known self.now)
            (option_map (λ text. text.now) wanted.entry)).here }
    {
        Around {
            names: self.names,
            wanted,
            no_break: false,
            words: self.words,
            ids: self.ids,
        }
    }

    /// The same in a statement that a `break` may leave.
    pub fn with_break<'b>(&'b self) -> Around<'b>
        ensures { result ≡ with_here self.now (with_break (known self.now)).here }
    {
        Around {
            names: self.names,
            wanted: self.wanted,
            no_break: false,
            words: self.words,
            ids: self.ids,
        }
    }

    /// The same in the blocks of an `if let`.
    pub fn without_break<'b>(&'b self) -> Around<'b>
        ensures { result ≡ with_here self.now (without_break (known self.now)).here }
    {
        Around {
            names: self.names,
            wanted: self.wanted,
            no_break: true,
            words: self.words,
            ids: self.ids,
        }
    }

    /// The same after the `async let`s of these words.
    pub fn after<'b>(&'b self, tasks: &'b Tasks<'_>) -> Around<'b>
        requires { tasks.now.texts ≡ self.now.texts }
        ensures { result ≡ with_here self.now (after_tasks (known self.now) tasks.now.words).here }
    {
        Around {
            names: self.names,
            wanted: self.wanted,
            no_break: self.no_break,
            words: tasks.words(),
            ids: tasks.ids(),
        }
    }

    /// The words of the `async let`s that this stands after.
    pub fn tasks(&self, alloc: Global) -> Result<Tasks<'a>, AllocError>
        ensures { IfOk result (λ tasks. tasks ≡ tasks_here self.now) }
    {
        Tasks::of(alloc, self.names, self.words, self.ids)
    }

    /// The ids of the words that stand for tasks.
    pub fn task_ids(&self) -> &'a [u32]
        ensures { result.now ≡ task_ids (known self.now) }
    {
        self.ids
    }

    /// Whether a text is that of a word that stands for a task.
    pub fn is_task(&self, text: &str) -> bool
        ensures { result ≡ list_any (λ task. bytes_eq text.now task) self.now.here.tasks }
    {
        if self.ids.is_empty() {
            return false;
        }
        if !self.ids.contains(&self.id_of(text)) {
            return false;
        }
        is_among(self.words, text)
    }

    /// Whether a `break` would leave an `if let`, so that none may stand here.
    pub fn no_break(&self) -> bool
        ensures { result ≡ self.now.here.no_break }
    {
        self.no_break
    }

    /// The word `T` where a `return` is to give a `T?`.
    pub fn wanted(&self) -> Option<&'a str>
        ensures { option_map (λ text. text.now) result ≡ self.now.here.wanted }
    {
        self.wanted
    }

    /// The id of a text, or the first id where no name has it.
    pub fn id_of(&self, text: &str) -> u32
        ensures { result ≡ index_in self.now.texts text.now }
    {
        id_in(self.names, text)
    }

    /// The id of a text with `?` after it.
    pub fn part_id(&self, alloc: Global, text: &str) -> Result<u32, AllocError>
        ensures { IfOk result (λ id. id ≡ index_in self.now.texts (part_text text.now)) }
    {
        let part = part_text(alloc, text)?;
        Ok(self.id_of(part.as_str()))
    }

    /// The id of a text with `??` after it.
    pub fn whole_id(&self, alloc: Global, text: &str) -> Result<u32, AllocError>
        ensures { IfOk result (λ id. id ≡ index_in self.now.texts (whole_text text.now)) }
    {
        let whole = whole_text(alloc, text)?;
        Ok(self.id_of(whole.as_str()))
    }
}
