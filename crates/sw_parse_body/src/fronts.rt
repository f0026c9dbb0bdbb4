//! Fronts: the block, the expression or the type with which tokens begin, from an index on.
//!
//! A front is read twice. The first reading finds where it ends, which doesn't hang on the names;
//! then the names of its tokens are interned, and the second reading gives the tree with their ids.

ghost use Rattle.std.specs.Prelude.{◌≡◌, ◌<◌, ◌≤◌, ℕ, List, length, drop, None, option_map};
ghost use Rattle.std.specs.Prelude.{OnOk, OnErr, IfOk, IfErr, IfSome};
ghost use Rattle.sw_token.specs.Spelling.{spelling_of, IsSpelling};
ghost use Rattle.sw_token.specs.Tokens.{IsTokens};
ghost use Rattle.sw_grammar.specs.Around.{index_in};
ghost use Rattle.sw_grammar.specs.Tokens.{optional_text};
ghost use Rattle.sw_parse_decl.specs.Programs.{most_nests};
ghost use Rattle.sw_parse_decl.specs.Texts.{ArePartlyInterned};
ghost use Rattle.sw_parse_body.specs.Phrases.{a_block, an_expr, a_type, IsFront, ExplainsFront};
ghost use Rattle.sw_parse_body.specs.Phrases.{KeepsNames, texts_after, texts_between, fault_in};
ghost use Rattle.sw_parse_body.specs.Phrases.{IsStopIn};
ghost use Rattle.sw_parse_body.specs.Wanted.{IsOptionalIn, wanted_in, word_of};

use super::phrases;
use std::alloc::{AllocError, Global};
use sw_grammar_forms::{Cursor, Stop};
use sw_parse_decl::{MAX_NESTS, ParseFault, intern_names};
use sw_text::Source;
use sw_token::Token;
use sw_tree::{Block, Expr, Names, TypeTree};

/// The fault of a reading that stops, among `count` tokens.
fn fault_of(stop: Stop, count: usize) -> ParseFault
    requires within { IsStopIn count stop }
    requires few { count < 4294967296 }
    ensures { result ≡ fault_in count stop }
{
    match stop {
        Stop::Unexpected { left } => ParseFault::Unexpected {
            token: (count - left) as u32,
        },
        Stop::TooDeep { left } => ParseFault::TooDeep {
            token: (count - left) as u32,
        },
        Stop::Memory => ParseFault::Memory,
    }
}

/// Interns the names of the tokens from one index up to another.
fn intern_between(
    alloc: Global,
    source: &Source,
    tokens: &[Token],
    from: usize,
    to: usize,
    names: &mut Names,
) -> Result<(), AllocError>
    requires tokens { IsTokens source.now tokens.now }
    requires ordered { from ≤ to }
    requires within { to ≤ length tokens.now }
    requires few { length names.old < 2147483648 }
    ensures texts { OnOk result (names.new ≡ texts_after names.old (spelling_of source.now
        tokens.now) from to) }
    ensures err { OnErr result (ArePartlyInterned names.old (texts_between (spelling_of source.now
        tokens.now) from to) names.new) }
{
    let bytes = source.len() as usize;
    prove!(tokens.len() <= bytes);
    intern_names(alloc, names, &mut Cursor::new(source, &tokens[from..to]))
}

/// The word `T` of a text `T?`.
fn word_of(text: &str) -> &str
    requires { (word : List ℕ) × (text.now ≡ optional_text word) }
    ensures { result.now ≡ word_of text.now }
{
    text.strip_suffix('?').unwrap()
}

/// The tokens from an index on.
fn cursor_from<'a>(source: &'a Source, tokens: &'a [Token], from: usize) -> Cursor<'a>
    requires tokens { IsTokens source.now tokens.now }
    requires within { from ≤ length tokens.now }
    ensures left { result ≡ drop from (spelling_of source.now tokens.now) }
    ensures spelling { IsSpelling (spelling_of source.now tokens.now) }
    ensures few { length tokens.now ≤ 262144 }
{
    let bytes = source.len() as usize;
    prove!(tokens.len() <= bytes);
    Cursor::new(source, &tokens[from..])
}

/// The block at the index `from`, and the index after it.
fn block_at(
    alloc: Global,
    source: &Source,
    tokens: &[Token],
    from: usize,
    depth: u32,
    names: &Names,
    word: Option<&str>,
) -> Result<(Block, usize), ParseFault>
    requires tokens { IsTokens source.now tokens.now }
    requires within { from ≤ length tokens.now }
    requires room { depth ≤ most_nests }
    ensures front { IfOk result (λ read. IsFront (a_block (option_map (λ text. text.now) word.entry))
        (index_in names.now) depth (spelling_of source.now tokens.now) from read) }
    ensures fault { IfErr result (λ fault. ExplainsFront (a_block (option_map (λ text. text.now)
        word.entry)) depth (spelling_of source.now tokens.now) from fault) }
    ensures spelling { IsSpelling (spelling_of source.now tokens.now) }
{
    let mut left = cursor_from(source, tokens, from);
    match phrases::block(alloc, names, &mut left, MAX_NESTS - depth, word) {
        Ok(block) => Ok((block, tokens.len() - left.count())),
        Err(stop) => Err(fault_of(stop, tokens.len())),
    }
}

/// The block with which the tokens begin at the index `from`, and the index after it, where each
/// `return` gives an optional of this word if there is one.
fn body_in(
    alloc: Global,
    source: &Source,
    tokens: &[Token],
    from: usize,
    depth: u32,
    names: &mut Names,
    word: Option<&str>,
) -> Result<(Block, usize), ParseFault>
    requires tokens { IsTokens source.now tokens.now }
    requires within { from ≤ length tokens.now }
    requires room { depth ≤ most_nests }
    requires few { length names.old < 2147483648 }
    ensures front { IfOk result (λ read. IsFront (a_block (option_map (λ text. text.now) word.entry))
        (index_in names.new) depth (spelling_of source.now tokens.now) from read) }
    ensures texts { IfOk result (λ read. names.new ≡ texts_after names.old
        (spelling_of source.now tokens.now) from read.1) }
    ensures fault { IfErr result (λ fault. ExplainsFront (a_block (option_map (λ text. text.now)
        word.entry)) depth (spelling_of source.now tokens.now) from fault) }
    ensures kept { IfErr result (λ fault. KeepsNames (a_block (option_map (λ text. text.now)
        word.entry)) depth (spelling_of source.now tokens.now) from names.old names.new fault) }
{
    let (_, to) = block_at(alloc, source, tokens, from, depth, names, word)?;
    intern_between(alloc, source, tokens, from, to, names)?;
    block_at(alloc, source, tokens, from, depth, names, word)
}

/// The block with which the tokens begin at the index `from`, and the index after it, where `depth`
/// nests are open before it, in a body whose result is the type `T?` of which `wanted` is the id,
/// or no optional. The names of its tokens are interned. A syntax fault leaves the names as they
/// were; out of memory, those of its first tokens may be interned.
pub fn body_of(
    alloc: Global,
    source: &Source,
    tokens: &[Token],
    from: usize,
    depth: u32,
    names: &mut Names,
    wanted: Option<u32>,
) -> Result<(Block, usize), ParseFault>
    requires tokens { IsTokens source.now tokens.now }
    requires within { from ≤ length tokens.now }
    requires room { depth ≤ most_nests }
    requires few { length names.old < 2147483648 }
    requires wanted { IfSome wanted (λ id. IsOptionalIn names.old id) }
    ensures front { IfOk result (λ read. IsFront (a_block (wanted_in names.old wanted))
        (index_in names.new) depth (spelling_of source.now tokens.now) from read) }
    ensures texts { IfOk result (λ read. names.new ≡ texts_after names.old
        (spelling_of source.now tokens.now) from read.1) }
    ensures fault { IfErr result (λ fault. ExplainsFront (a_block (wanted_in names.old wanted)) depth
        (spelling_of source.now tokens.now) from fault) }
    ensures kept { IfErr result (λ fault. KeepsNames (a_block (wanted_in names.old wanted)) depth
        (spelling_of source.now tokens.now) from names.old names.new fault) }
{
    let Some(id) = wanted else {
        return body_in(alloc, source, tokens, from, depth, names, None);
    };
    let word = String::from_str(alloc, word_of(names.text(id)))?;
    body_in(
        alloc,
        source,
        tokens,
        from,
        depth,
        names,
        Some(word.as_str()),
    )
}

/// The same in a body whose result is no optional.
pub fn body(
    alloc: Global,
    source: &Source,
    tokens: &[Token],
    from: usize,
    depth: u32,
    names: &mut Names,
) -> Result<(Block, usize), ParseFault>
    requires tokens { IsTokens source.now tokens.now }
    requires within { from ≤ length tokens.now }
    requires room { depth ≤ most_nests }
    requires few { length names.old < 2147483648 }
    ensures front { IfOk result (λ read. IsFront (a_block None) (index_in names.new) depth
        (spelling_of source.now tokens.now) from read) }
    ensures texts { IfOk result (λ read. names.new ≡ texts_after names.old
        (spelling_of source.now tokens.now) from read.1) }
    ensures fault { IfErr result (λ fault. ExplainsFront (a_block None) depth
        (spelling_of source.now tokens.now) from fault) }
    ensures kept { IfErr result (λ fault. KeepsNames (a_block None) depth
        (spelling_of source.now tokens.now) from names.old names.new fault) }
{
    body_of(alloc, source, tokens, from, depth, names, None)
}

/// The expression at the index `from`, and the index after it.
fn expr_at(
    alloc: Global,
    source: &Source,
    tokens: &[Token],
    from: usize,
    depth: u32,
    names: &Names,
) -> Result<(Expr, usize), ParseFault>
    requires tokens { IsTokens source.now tokens.now }
    requires within { from ≤ length tokens.now }
    requires room { depth ≤ most_nests }
    ensures front { IfOk result (λ read. IsFront an_expr (index_in names.now) depth
        (spelling_of source.now tokens.now) from read) }
    ensures fault { IfErr result (λ fault. ExplainsFront an_expr depth
        (spelling_of source.now tokens.now) from fault) }
    ensures spelling { IsSpelling (spelling_of source.now tokens.now) }
{
    let mut left = cursor_from(source, tokens, from);
    match phrases::expr(alloc, names, &mut left, MAX_NESTS - depth) {
        Ok(value) => Ok((value, tokens.len() - left.count())),
        Err(stop) => Err(fault_of(stop, tokens.len())),
    }
}

/// The expression with which the tokens begin at the index `from`, and the index after it, where
/// `depth` nests are open before it. No expression goes on with the token after it. The names of
/// its tokens are interned. A syntax fault leaves the names as they were; out of memory, those of
/// its first tokens may be interned.
pub fn value(
    alloc: Global,
    source: &Source,
    tokens: &[Token],
    from: usize,
    depth: u32,
    names: &mut Names,
) -> Result<(Expr, usize), ParseFault>
    requires tokens { IsTokens source.now tokens.now }
    requires within { from ≤ length tokens.now }
    requires room { depth ≤ most_nests }
    requires few { length names.old < 2147483648 }
    ensures front { IfOk result (λ read. IsFront an_expr (index_in names.new) depth
        (spelling_of source.now tokens.now) from read) }
    ensures texts { IfOk result (λ read. names.new ≡ texts_after names.old
        (spelling_of source.now tokens.now) from read.1) }
    ensures fault { IfErr result (λ fault. ExplainsFront an_expr depth
        (spelling_of source.now tokens.now) from fault) }
    ensures kept { IfErr result (λ fault. KeepsNames an_expr depth
        (spelling_of source.now tokens.now)
        from names.old names.new fault) }
{
    let (_, to) = expr_at(alloc, source, tokens, from, depth, names)?;
    intern_between(alloc, source, tokens, from, to, names)?;
    expr_at(alloc, source, tokens, from, depth, names)
}

/// The type at the index `from`, and the index after it.
fn type_at(
    alloc: Global,
    source: &Source,
    tokens: &[Token],
    from: usize,
    depth: u32,
    names: &Names,
) -> Result<(TypeTree, usize), ParseFault>
    requires tokens { IsTokens source.now tokens.now }
    requires within { from ≤ length tokens.now }
    requires room { depth ≤ most_nests }
    ensures front { IfOk result (λ read. IsFront a_type (index_in names.now) depth
        (spelling_of source.now tokens.now) from read) }
    ensures fault { IfErr result (λ fault. ExplainsFront a_type depth
        (spelling_of source.now tokens.now) from fault) }
    ensures spelling { IsSpelling (spelling_of source.now tokens.now) }
{
    let mut left = cursor_from(source, tokens, from);
    match phrases::type_tree(alloc, names, &mut left, MAX_NESTS - depth) {
        Ok(tree) => Ok((tree, tokens.len() - left.count())),
        Err(stop) => Err(fault_of(stop, tokens.len())),
    }
}

/// The type with which the tokens begin at the index `from`, and the index after it, where
/// `depth` nests are open before it. No type goes on with the token after it. The names of its
/// tokens are interned. A syntax fault leaves the names as they were; out of memory, those of its
/// first tokens may be interned.
pub fn written_type(
    alloc: Global,
    source: &Source,
    tokens: &[Token],
    from: usize,
    depth: u32,
    names: &mut Names,
) -> Result<(TypeTree, usize), ParseFault>
    requires tokens { IsTokens source.now tokens.now }
    requires within { from ≤ length tokens.now }
    requires room { depth ≤ most_nests }
    requires few { length names.old < 2147483648 }
    ensures front { IfOk result (λ read. IsFront a_type (index_in names.new) depth
        (spelling_of source.now tokens.now) from read) }
    ensures texts { IfOk result (λ read. names.new ≡ texts_after names.old
        (spelling_of source.now tokens.now) from read.1) }
    ensures fault { IfErr result (λ fault. ExplainsFront a_type depth
        (spelling_of source.now tokens.now) from fault) }
    ensures kept { IfErr result (λ fault. KeepsNames a_type depth
        (spelling_of source.now tokens.now)
        from names.old names.new fault) }
{
    let (_, to) = type_at(alloc, source, tokens, from, depth, names)?;
    intern_between(alloc, source, tokens, from, to, names)?;
    type_at(alloc, source, tokens, from, depth, names)
}
