//! One function for each phase.

ghost use Rattle.std.specs.Prelude.{◌≡◌, ◌≢◌, ◌≤◌, ◌<◌, ◌^◌, ℕ, List, IfOk, OnOk, None, length};
ghost use Rattle.std.specs.Prelude.{Contains, map};
ghost use Rattle.sw_token.specs.declared.Token.{Token};
ghost use Rattle.sw_token.specs.Tokens.{IsTokens, position_of};
ghost use Rattle.sw_token.specs.Spelling.{spelling_of};
ghost use Rattle.sw_parse_decl.specs.Programs.{IsProgramOf, texts_of};
ghost use Rattle.sw_decls.specs.Declaring.{IsDeclared, IsFirstBreach};
ghost use Rattle.sw_decls.specs.declared.signature.AsyncDefault.{AsyncDefault};
ghost use Rattle.sw_typing_table.specs.Typed.{IsTyped};
ghost use Rattle.sw_typing_rules.specs.Programs.{IsFirstIll};
ghost use Rattle.sw_typing_rules.specs.Worlds.{world_of};
ghost use Rattle.sw_isolation_table.specs.Known.{answers_of};
ghost use Rattle.sw_isolation_table.specs.Isolated.{IsIsolated};
ghost use Rattle.sw_lower_known.specs.Knowledge.{isolation_of};
ghost use Rattle.sw_lower.specs.Lowered.{IsLowering};
ghost use Rattle.sw_lower_rules.specs.Bodies.{tables_of};
ghost use Rattle.sw_region_flow.specs.Breaches.{AreAll};
ghost use Rattle.sw_verdict.specs.Phases.{DeclarationsFinds, EncodingFinds, HasProgram, IsRaceBreach};
ghost use Rattle.sw_verdict.specs.Phases.{IsolationFinds, LexisFinds, SizeFinds, SyntaxFinds};
ghost use Rattle.sw_verdict.specs.Phases.{TypesFinds, breach_of, lexical_code, syntax_code};
ghost use Rattle.sw_verdict.specs.Phases.{token_of, token_position};
ghost use Rattle.sw_verdict.specs.Found.{Found, refusal_at};

use std::alloc::{AllocError, Global};
use std::marker::Brand;
use std::sync::ledger::{Blank, Ledger};
use sw_breach::Breach;
use sw_decl_words::Placed;
use sw_decls::{AsyncDefault, DeclFault, Decls, declare};
use sw_graph::Graph;
use sw_isolation::{IsoFault, Isolated, isolate};
use sw_list::ListOf;
use sw_lower::{LowerFault, Lowering, lower};
use sw_parse_body::program;
use sw_parse_decl::ParseFault;
use sw_region_flow::{breaches, in_order};
use sw_solve::Steps;
use sw_text::{MAX_LENGTH, Source, TextFault};
use sw_token::{LexFault, Token, tokens};
use sw_tree::Program;
use sw_typing::{TypeFault, Typed, type_program};

/// A text that isn't UTF-8.
const NOT_UTF8: u16 = 101;

/// A comment that isn't closed.
const UNCLOSED_COMMENT: u16 = 102;

/// An integer literal with too large a value.
const TOO_LARGE_LITERAL: u16 = 103;

/// A character with which nothing goes on.
const BAD_CHARACTER: u16 = 104;

/// A token that is one too many.
const TOO_MANY_TOKENS: u16 = 105;

/// A token that can't stand where it does.
const UNEXPECTED_TOKEN: u16 = 201;

/// A token that opens a nest too many.
const NESTED_TOO_DEEPLY: u16 = 202;

/// Why a text has no graph.
#[derive(Drop)]
pub enum Refusal {
    /// The one breach of the first phase that finds any.
    Breached { breach: Breach },
    /// Memory ran out.
    Memory,
}

impl From<AllocError> for Refusal {
    ghost use Rattle.std.specs.Prelude.{◌≡◌};
    ghost use Rattle.sw_verdict.specs.declared.phases.Refusal.TheVariants.{Memory};

    ghost from_gives = { λ _ refusal. refusal ≡ Memory };

    fn from(_: AllocError) -> Refusal {
        Refusal::Memory
    }
}

/// A breach without a note.
fn breach_of(placed: Placed) -> Breach
    ensures { result ≡ breach_of placed }
{
    Breach {
        code: placed.code,
        at: placed.at,
        note: None,
    }
}

/// The refusal for a breach, which has no note.
fn refused(code: u16, at: u32) -> Refusal
    ensures { result ≡ refusal_at code at }
{
    Refusal::Breached {
        breach: breach_of(Placed { at, code }),
    }
}

/// The text, where it is UTF-8.
pub fn encoding(alloc: Global, text: &[u8]) -> Result<Source, Refusal>
    requires { length text.now ≤ MAX_LENGTH }
    ensures found { Found (EncodingFinds text.now) result }
    ensures same { IfOk result (λ source. source ≡ text.now) }
{
    match Source::new(alloc, text) {
        Ok(source) => Ok(source),
        Err(TextFault::NotUtf8 { at }) => Err(refused(NOT_UTF8, at)),
        Err(TextFault::Memory) => Err(Refusal::Memory),
    }
}

/// The refusal for a fault of the tokens.
fn lexical_refusal(fault: LexFault) -> Refusal
    ensures { result ≢ Refusal.Memory → (fault ≢ LexFault.Memory)
        × (result ≡ refusal_at (lexical_code fault) (position_of fault)) }
{
    match fault {
        LexFault::Unclosed { at } => refused(UNCLOSED_COMMENT, at),
        LexFault::TooBig { at } => refused(TOO_LARGE_LITERAL, at),
        LexFault::BadChar { at } => refused(BAD_CHARACTER, at),
        LexFault::TooMany { at } => refused(TOO_MANY_TOKENS, at),
        LexFault::Memory => Refusal::Memory,
    }
}

/// The tokens of a text.
pub fn lexis(alloc: Global, source: &Source) -> Result<Vec<Token>, Refusal>
    ensures found { Found (LexisFinds source.now) result }
    ensures tokens { IfOk result (λ tokens. IsTokens source.now tokens.items) }
{
    match tokens(alloc, source) {
        Ok(tokens) => Ok(tokens),
        Err(fault) => Err(lexical_refusal(fault)),
    }
}

/// The position of the token after the first `n`; the end of the text where there are no more.
fn token_position(source: &Source, tokens: &[Token], n: u32) -> u32
    ensures { result ≡ token_position source.now tokens.now n }
{
    match tokens.get(n as usize) {
        Some(token) => token.span.start,
        None => source.len(),
    }
}

/// The refusal for a fault of the syntax.
fn syntax_refusal(source: &Source, tokens: &[Token], fault: ParseFault) -> Refusal
    ensures { result ≢ Refusal.Memory → (fault ≢ ParseFault.Memory)
        × (result ≡ refusal_at (syntax_code fault)
        (token_position source.now tokens.now (token_of fault))) }
{
    match fault {
        ParseFault::Unexpected { token } => {
            let at = token_position(source, tokens, token);
            refused(UNEXPECTED_TOKEN, at)
        }
        ParseFault::TooDeep { token } => {
            let at = token_position(source, tokens, token);
            refused(NESTED_TOO_DEEPLY, at)
        }
        ParseFault::Memory => Refusal::Memory,
    }
}

/// The program that the tokens of a text spell.
pub fn syntax(alloc: Global, source: &Source, tokens: &[Token]) -> Result<Program, Refusal>
    requires { IsTokens source.now tokens.now }
    ensures found { Found (SyntaxFinds source.now) result }
    ensures program { IfOk result (λ program. IsProgramOf program.decls
        (spelling_of source.now tokens.now)) }
    ensures texts { IfOk result (λ program. program.texts
        ≡ texts_of (spelling_of source.now tokens.now)) }
    ensures few { IfOk result (λ program. length program.decls ≤ length tokens.now) }
{
    match program(alloc, source, tokens) {
        Ok(program) => Ok(program),
        Err(fault) => Err(syntax_refusal(source, tokens, fault)),
    }
}

/// What a program declares, where asynchronous functions without an annotation run by `default`.
pub fn declarations(
    alloc: Global,
    program: &Program,
    default: AsyncDefault,
) -> Result<Decls, Refusal>
    requires { length program.now.decls < 2 ^ 31 }
    ensures found { (text : List ℕ) → HasProgram text program.now.decls
        → Found (DeclarationsFinds text) result }
    ensures declared { IfOk result (IsDeclared program.now.decls default) }
    ensures sound { OnOk result (IsFirstBreach program.now.decls None) }
{
    match declare(alloc, program, default) {
        Ok(decls) => Ok(decls),
        Err(DeclFault::Breach { code, at }) => Err(refused(code, at)),
        Err(DeclFault::Memory) => Err(Refusal::Memory),
    }
}

/// The types of a program that declares these, by whatever default.
pub fn types(alloc: Global, program: &Program, declared: &Decls) -> Result<Typed, Refusal>
    requires { length program.now.decls < 2 ^ 31 }
    ensures found { (rule : AsyncDefault) (text : List ℕ)
        → IsDeclared program.now.decls rule declared.now → HasProgram text program.now.decls
        → Found (TypesFinds rule text) result }
    ensures typed { IfOk result (IsTyped (world_of declared.now) program.now.decls) }
    ensures well { OnOk result (IsFirstIll (world_of declared.now) program.now.decls None) }
{
    match type_program(alloc, program, declared) {
        Ok(typed) => Ok(typed),
        Err(TypeFault::Breach { code, at }) => Err(refused(code, at)),
        Err(TypeFault::Memory) => Err(Refusal::Memory),
    }
}

/// How a program is isolated that declares these, by whatever default, and whose nodes have these
/// types.
pub fn isolation(
    alloc: Global,
    program: &Program,
    declared: &Decls,
    typed: &Typed,
) -> Result<Isolated, Refusal>
    requires small { length program.now.decls < 2 ^ 31 }
    requires typed { IsTyped (world_of declared.now) program.now.decls typed.now }
    ensures found { (rule : AsyncDefault) (text : List ℕ)
        → IsDeclared program.now.decls rule declared.now → HasProgram text program.now.decls
        → Found (IsolationFinds rule text) result }
    ensures isolated { IfOk result
        (IsIsolated (world_of declared.now) (answers_of typed.now) program.now.decls) }
{
    match isolate(alloc, program, declared, typed) {
        Ok(isolated) => Ok(isolated),
        Err(IsoFault::Breach { code, at }) => Err(refused(code, at)),
        Err(IsoFault::Memory) => Err(Refusal::Memory),
    }
}

/// The functions of a text's program none of whose functions is too large, with the numbers of
/// those that a graph names. The program keeps the rules on declarations and on types. It declares
/// these, by whatever default, its nodes have these types, and it is isolated so.
pub fn size(
    alloc: Global,
    program: &Program,
    declared: &Decls,
    typed: &Typed,
    isolated: &Isolated,
) -> Result<Lowering, Refusal>
    requires small { length program.now.decls < 2 ^ 31 }
    requires typed { IsTyped (world_of declared.now) program.now.decls typed.now }
    requires isolated { IsIsolated (world_of declared.now) (answers_of typed.now)
        program.now.decls isolated.now }
    requires spelled { (text : List ℕ) × HasProgram text program.now.decls }
    requires sound { IsFirstBreach program.now.decls None }
    requires declared { (rule : AsyncDefault) × IsDeclared program.now.decls rule declared.now }
    requires well { IsFirstIll (world_of declared.now) program.now.decls None }
    ensures found { (rule : AsyncDefault) (text : List ℕ)
        → IsDeclared program.now.decls rule declared.now → HasProgram text program.now.decls
        → Found (SizeFinds rule text) result }
    ensures functions { IfOk result (IsLowering (tables_of (world_of declared.now)
        (answers_of typed.now) (isolation_of isolated.now) program.now.decls)
        program.now.decls) }
{
    match lower(alloc, program, declared, typed, isolated) {
        Ok(lowering) => Ok(lowering),
        Err(LowerFault::Breach { code, at }) => Err(refused(code, at)),
        Err(LowerFault::Missing) => unreachable!(),
        Err(LowerFault::Memory) => Err(Refusal::Memory),
    }
}

/// Breaches without notes.
fn breaches_of(alloc: Global, shared: &[Placed]) -> Result<Vec<Breach>, AllocError>
    ensures { IfOk result (λ list. list.items ≡ map breach_of shared.now) }
{
    let mut list = ListOf::new(alloc);
    for placed in shared {
        list.push(breach_of(*placed))?;
    }
    Ok(list.into_vec())
}

/// The breaches of all values that are shared, by position and then by code.
pub fn sharing(alloc: Global, shared: &[Placed]) -> Result<ListOf<Breach>, AllocError>
    ensures { IfOk result (λ list. AreAll (Contains (map breach_of shared.now)) list) }
{
    let list = breaches_of(alloc, shared)?;
    Ok(ListOf::from_vec(in_order(list)))
}

/// All values that are shared, and all region breaches of a graph. The blank is that of a counter
/// of steps.
fn all_races<L: Ledger>(
    alloc: Global,
    shared: &[Placed],
    graph: &Graph,
    blank: Blank,
) -> Result<Vec<Breach>, AllocError>
    requires name { blank.name ≡ L.name }
    requires parts { blank.parts ≡ L.parts }
    requires part { 0 < blank.parts }
    ensures { IfOk result (λ list. AreAll (IsRaceBreach shared.now graph.now) list.items) }
{
    let mut steps = Steps::<L>::new(blank);
    let regions = breaches(alloc, graph, &mut steps)?;
    let mut list = breaches_of(alloc, shared)?;
    list.extend_from_slice(regions.as_slice())?;
    Ok(in_order(list))
}

/// All values that a program shares, and all region breaches of its graph, by position and then by
/// code.
pub fn races(alloc: Global, shared: &[Placed], graph: &Graph) -> Result<ListOf<Breach>, AllocError>
    ensures { IfOk result (λ list. AreAll (IsRaceBreach shared.now graph.now) list) }
{
    let list = all_races::<Brand>(alloc, shared, graph, Blank::new(1))?;
    Ok(ListOf::from_vec(list))
}
