//! What the parser of declarations asks of a parser of expressions and statements.

ghost use Rattle.std.specs.Prelude.{option_map};
ghost use Rattle.sw_grammar_forms.specs.Outcome.{Gives};
ghost use Rattle.sw_grammar.specs.Stmts.{value, block};
ghost use Rattle.sw_grammar.specs.Reading.{read};
ghost use Rattle.sw_parse_parts.specs.Around.{known};
ghost use Rattle.sw_parse_decl.specs.Parts.{given_value};

use std::alloc::Global;
use sw_grammar_forms::{Cursor, Stop};
use sw_parse_parts::Around;
use sw_tree::{Block, Expr};

/// A parser of what stands in declarations: the values of variables and the blocks of functions.
///
/// Each method answers as the grammar's reader of its rule, whatever stands `around`, and for any
/// tokens and depth: it takes the tokens of the rule from the front of `tokens`, or stops where the
/// reader does. At most `depth` more nests may be open inside one another. Out of memory is the one
/// free answer, and after a stop nothing is said of the tokens that are left.
pub trait Bodies {
    /// `=` and an expression.
    fn value(
        &self,
        alloc: Global,
        around: &Around<'_>,
        tokens: &mut Cursor<'_>,
        depth: u32,
    ) -> Result<Expr, Stop>
        ensures { Gives (read (known around.now) depth (value (known around.now)) tokens.old) result
            tokens.new };

    /// `=` and a value, where a `T?` may be wanted of a word `T`.
    fn value_for(
        &self,
        alloc: Global,
        around: &Around<'_>,
        tokens: &mut Cursor<'_>,
        depth: u32,
        wanted: Option<&str>,
    ) -> Result<Expr, Stop>
        ensures { Gives (given_value (known around.now) depth
            (option_map (λ text. text.now) wanted.entry) tokens.old) result tokens.new };

    /// A block, from its `{` to its `}`.
    fn block(
        &self,
        alloc: Global,
        around: &Around<'_>,
        tokens: &mut Cursor<'_>,
        depth: u32,
    ) -> Result<Block, Stop>
        ensures { Gives (read (known around.now) depth (block (known around.now)) tokens.old) result
            tokens.new };
}
