//! Words that stand for tasks.

ghost use Rattle.std.specs.Prelude.{◌≡◌, ◌++◌, ◌∷◌, [], map, bytes_eq, OnOk, IfOk};
ghost use Rattle.std.specs.List.{list_any};
ghost use Rattle.sw_grammar.specs.Around.{index_in};

use std::alloc::{AllocError, Global};
use std::marker::Model;
use sw_tree::Names;

/// The words of `async let`s in their order, which may grow, and their ids: where it is asked whether
/// a word is one of them, ids are faster to compare.
#[derive(Drop)]
pub struct Tasks<'a> {
    names: &'a Names,
    words: Vec<&'a str>,
    ids: Vec<u32>,
}

impl<'a> Model for Tasks<'a> {
    ghost use Rattle.std.specs.Prelude.{◌≡◌, map};
    ghost use Rattle.sw_grammar.specs.Around.{index_in};
    ghost use Rattle.sw_parse_parts.specs.Around.{TaskWords};

    ghost Value = { TaskWords };

    ghost view = { λ t. record {
      texts = t.names.now;
      words = map (λ word. word.now) t.words.items;
    } };

    ghost invariant = { λ t. t.ids.items
        ≡ map (index_in t.names.now) (map (λ word. word.now) t.words.items) };
}

/// The id of a text, or the first id where no name has it.
pub fn id_in(names: &Names, text: &str) -> u32
    ensures { result ≡ index_in names.now text.now }
{
    let id = names.id_of(text);
    if (id as usize) < names.count() { id } else { 0 }
}

/// Whether a text is one of these words.
pub fn is_among(words: &[&str], text: &str) -> bool
    ensures { result ≡ list_any (λ word. bytes_eq text.now word.now) words.now }
{
    words.iter().any(|word| text == *word)
}

impl<'a> Tasks<'a> {
    /// These words with their ids.
    pub fn of(
        alloc: Global,
        names: &'a Names,
        words: &[&'a str],
        ids: &[u32],
    ) -> Result<Tasks<'a>, AllocError>
        requires { ids.now ≡ map (index_in names.now) (map (λ word. word.now) words.now) }
        ensures texts { IfOk result (λ tasks. tasks.texts ≡ names.now) }
        ensures words { IfOk result (λ tasks. tasks.words ≡ map (λ word. word.now) words.now) }
    {
        let mut own_words = Vec::new(alloc);
        own_words.extend_from_slice(words)?;
        let mut own_ids = Vec::new(alloc);
        own_ids.extend_from_slice(ids)?;
        Ok(Tasks {
            names,
            words: own_words,
            ids: own_ids,
        })
    }

    /// One word more.
    pub fn push(&mut self, word: &'a str) -> Result<(), AllocError>
        ensures texts { OnOk result (self.new.texts ≡ self.old.texts) }
        ensures words { OnOk result (self.new.words ≡ self.old.words ++ word.now ∷ []) }
    {
        self.ids.push(id_in(self.names, word))?;
        if let Err(failed) = self.words.push(word) {
            self.ids.pop();
            return Err(failed.into());
        }
        Ok(())
    }

    /// The words.
    pub fn words(&self) -> &[&'a str]
        ensures { map (λ word. word.now) result.now ≡ self.now.words }
    {
        self.words.as_slice()
    }

    /// Their ids.
    pub fn ids(&self) -> &[u32]
        ensures { result.now ≡ map (index_in self.now.texts) self.now.words }
    {
        self.ids.as_slice()
    }
}
