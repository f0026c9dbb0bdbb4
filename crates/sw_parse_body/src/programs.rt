//! Whole programs.

ghost use Rattle.std.specs.Prelude.{◌≡◌, ◌≤◌, IfOk, IfErr, length};
ghost use Rattle.sw_token.specs.Spelling.{spelling_of};
ghost use Rattle.sw_token.specs.Tokens.{IsTokens};
ghost use Rattle.sw_parse_decl.specs.Programs.{texts_of, IsProgramOf, Explains};

use super::parser::Parser;
use std::alloc::Global;
use sw_parse_decl::ParseFault;
use sw_text::Source;
use sw_token::Token;
use sw_tree::Program;

/// The program that the tokens of a text spell, or why they spell none.
pub fn program(alloc: Global, source: &Source, tokens: &[Token]) -> Result<Program, ParseFault>
    requires { IsTokens source.now tokens.now }
    ensures texts { IfOk result (λ program. program.texts ≡ texts_of (spelling_of source.now
        tokens.now)) }
    ensures decls { IfOk result (λ program. IsProgramOf program.decls (spelling_of source.now
        tokens.now)) }
    // Each declaration has a token of its own.
    ensures few { IfOk result (λ program. length program.decls ≤ length tokens.now) }
    ensures fault { IfErr result (λ fault. Explains fault (spelling_of source.now tokens.now)) }
{
    sw_parse_decl::program(alloc, &Parser, source, tokens)
}
