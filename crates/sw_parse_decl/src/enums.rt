//! The enums of the optionals of a program.

ghost use Rattle.std.specs.Prelude.{◌≡◌, ◌++◌, ◌<◌, List, length, fold, codes, IfOk, OnOk};
ghost use Rattle.sw_token.specs.Spelling.{Spelled};
ghost use Rattle.sw_grammar.specs.Around.{index_in};
ghost use Rattle.sw_grammar.specs.Enums.{Marked, enums, marked_by, with_marked};
ghost use Rattle.sw_grammar.specs.Tokens.{optional_text};
ghost use Rattle.sw_sugar.specs.Optionals.{name_at, optional_enum_tree};
ghost use Rattle.sw_parse_decl.specs.Found.{AreFound, IsWordOf, TakesWord};

use indexmap::IndexSet;
use std::alloc::{AllocError, Global};
use sw_grammar_forms::Cursor;
use sw_list::ListOf;
use sw_parse_parts::Around;
use sw_sugar::optional_enum_tree;
use sw_tree::{Decl, DeclList, Name};

/// The text of a token, and where it stands.
#[derive(Clone, Copy)]
struct Word<'a> {
    text: &'a str,
    at: u32,
}

/// Declarations with the enums of the optionals found so far, and the texts of their words.
#[derive(Drop)]
struct Found<'a> {
    decls: Vec<Decl>,
    texts: IndexSet<&'a str>,
}

/// Takes the next token.
fn take_word<'a>(tokens: &mut Cursor<'a>) -> Word<'a>
    requires { 0 < length tokens.old }
    ensures { TakesWord tokens.old result tokens.new }
{
    let text = tokens.text();
    let at = tokens.take();
    Word { text, at }
}

/// The enum of the optional of a word with a `?` after it.
fn enum_of(
    alloc: Global,
    around: &Around<'_>,
    word: Word<'_>,
    mark_at: u32,
) -> Result<Decl, AllocError>
    ensures { IfOk result (λ tree. tree ≡ optional_enum_tree (index_in around.now.texts (codes "none"))
        (index_in around.now.texts (codes "some"))
        (index_in around.now.texts (optional_text word.entry.text.now))
        (name_at word.entry.at (index_in around.now.texts word.entry.text.now)) mark_at) }
{
    let none = around.id_of("none");
    let some = around.id_of("some");
    let optional = around.part_id(alloc, word.text)?;
    let of = Name {
        at: word.at,
        id: around.id_of(word.text),
    };
    optional_enum_tree(alloc, none, some, optional, of, mark_at)
}

impl<'a> Found<'a> {
    /// Adds the enum of the optional of a word with a `?` after it, if no word so far has its text.
    fn add(
        &mut self,
        alloc: Global,
        around: &Around<'_>,
        word: Word<'a>,
        mark_at: u32,
    ) -> Result<(), AllocError>
        ensures { OnOk result ((written : List Decl) (all : List Marked) (one : Marked)
            → AreFound (index_in around.now.texts) written all self.old
            → IsWordOf one.word word.entry → one.mark.at ≡ mark_at
            → AreFound (index_in around.now.texts) written (with_marked all one) self.new) }
    {
        if self.texts.insert(word.text)? {
            self.decls.push(enum_of(alloc, around, word, mark_at)?)?;
        }
        Ok(())
    }

    /// Takes the token after a word, and adds the enum of the word's optional if it is a `?`.
    fn take_after(
        &mut self,
        alloc: Global,
        around: &Around<'_>,
        word: Word<'a>,
        tokens: &mut Cursor<'a>,
    ) -> Result<Word<'a>, AllocError>
        requires { 0 < length tokens.old }
        ensures taken { IfOk result (λ next. TakesWord tokens.old next tokens.new) }
        ensures found { OnOk result ((written : List Decl) (all : List Marked) (token : Spelled)
            → AreFound (index_in around.now.texts) written all self.old
            → IsWordOf token word.entry
            → AreFound (index_in around.now.texts) written
            (fold with_marked all (marked_by token tokens.old)) self.new) }
    {
        if !tokens.sees("?") {
            return Ok(take_word(tokens));
        }
        let mark = take_word(tokens);
        self.add(alloc, around, word, mark.at)?;
        Ok(mark)
    }
}

/// Takes all tokens, and gives the declarations with the enums of their optionals after them.
pub fn with_enums(
    alloc: Global,
    around: &Around<'_>,
    decls: DeclList,
    tokens: &mut Cursor<'_>,
) -> Result<DeclList, AllocError>
    ensures { IfOk result (λ all. all ≡ decls ++ enums (index_in around.now.texts) tokens.old) }
{
    if tokens.count() == 0 {
        return Ok(decls);
    }
    let mut found = Found {
        decls: decls.into_vec(),
        texts: IndexSet::new(alloc),
    };
    let mut word = take_word(tokens);
    while tokens.count() > 0 {
        word = found.take_after(alloc, around, word, tokens)?;
    }
    Ok(ListOf::from_vec(found.decls))
}
