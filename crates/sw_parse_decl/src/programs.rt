//! Whole programs.

ghost use Rattle.std.specs.Prelude.{◌≡◌, ◌≤◌, length, IfOk, IfErr};
ghost use Rattle.sw_token.specs.Spelling.{spelling_of};
ghost use Rattle.sw_token.specs.Tokens.{IsTokens};
ghost use Rattle.sw_grammar_forms.specs.Outcome.{Gives};
ghost use Rattle.sw_parse_parts.specs.Around.{known};
ghost use Rattle.sw_parse_decl.specs.Programs.{whole_around, texts_of, IsProgramOf, Explains};

use crate::bodies::Bodies;
use crate::decls::decls;
use crate::enums::with_enums;
use crate::fault::ParseFault;
use crate::names::names_of;
use std::alloc::Global;
use sw_grammar_forms::{Cursor, Stop};
use sw_parse_parts::Around;
use sw_text::Source;
use sw_token::Token;
use sw_tree::{DeclList, Program};

/// How many nests may be open at a token of a program.
pub const MAX_NESTS: u32 = 128;

/// The declarations that tokens spell and no more.
#[tactic(auto, unfolding(sw_grammar::specs::Decls::program))]
fn whole<B: Bodies>(
    alloc: Global,
    bodies: &B,
    around: &Around<'_>,
    tokens: &mut Cursor<'_>,
) -> Result<DeclList, Stop>
    ensures { Gives (whole_around (known around.now) tokens.old) result tokens.new }
{
    let decls = decls(alloc, bodies, around, tokens, MAX_NESTS)?;
    tokens.finish()?;
    Ok(decls)
}

/// The program that the tokens of a text spell, or why they spell none.
pub fn program<B: Bodies>(
    alloc: Global,
    bodies: &B,
    source: &Source,
    tokens: &[Token],
) -> Result<Program, ParseFault>
    requires { IsTokens source.now tokens.now }
    ensures texts { IfOk result (λ program. program.texts ≡ texts_of (spelling_of source.now
        tokens.now)) }
    ensures decls { IfOk result (λ program. IsProgramOf program.decls (spelling_of source.now
        tokens.now)) }
    // Each declaration has a token of its own.
    ensures few { IfOk result (λ program. length program.decls ≤ length tokens.now) }
    ensures fault { IfErr result (λ fault. Explains fault (spelling_of source.now tokens.now)) }
{
    // No text has more tokens than bytes, so each index in the list fits.
    let bytes = source.len() as usize;
    prove!(tokens.len() <= bytes);
    let names = names_of(alloc, &mut Cursor::new(source, tokens))?;
    let around = Around::new(&names);
    match whole(alloc, bodies, &around, &mut Cursor::new(source, tokens)) {
        Ok(decls) => {
            let decls = with_enums(alloc, &around, decls, &mut Cursor::new(source, tokens))?;
            Ok(Program::new(decls, names))
        }
        Err(Stop::Unexpected { left }) => Err(ParseFault::Unexpected {
            token: (tokens.len() - left) as u32,
        }),
        Err(Stop::TooDeep { left }) => Err(ParseFault::TooDeep {
            token: (tokens.len() - left) as u32,
        }),
        Err(Stop::Memory) => Err(ParseFault::Memory),
    }
}
