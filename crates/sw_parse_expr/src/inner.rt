//! What the parser of expressions and statements asks of a parser of what stands in nests.

ghost use Rattle.std.specs.Prelude.{ℕ, true};
ghost use Rattle.sw_grammar_forms.specs.Outcome.{Gives};
ghost use Rattle.sw_grammar.specs.Exprs as exprs;
ghost use Rattle.sw_grammar.specs.Stmts as stmts;
ghost use Rattle.sw_grammar.specs.Reading.{read};
ghost use Rattle.sw_parse_parts.specs.Around.{known};

use std::alloc::Global;
use sw_grammar_forms::{Cursor, Stop};
use sw_parse_parts::Around;
use sw_tree::{Arg, Expr, Stmt, StmtList};

/// A parser of what stands in nests: expressions, arguments and statements further in.
///
/// The functions of this crate read one nest, and ask an `Inner` for what stands in the nests that
/// they open, where fewer nests may be opened. So none of them calls itself, and each is proved
/// alone. Each method answers as the grammar's reader of its rule, at the depths for which the
/// parser `reads`: it takes the tokens of the rule from the front of `tokens`, or stops where the
/// reader does. Out of memory is the one free answer.
pub trait Inner {
    /// The methods may be called where this many more nests may be opened.
    ghost reads: { Self → ℕ → Type 0 };

    /// An expression, in which closures may stand.
    fn expr(
        &self,
        alloc: Global,
        around: &Around<'_>,
        tokens: &mut Cursor<'_>,
        depth: u32,
    ) -> Result<Expr, Stop>
        requires { reads self.now depth }
        ensures { Gives (read (known around.now) depth (exprs.expr (known around.now) true)
            tokens.old) result tokens.new };

    /// An argument of a call, with its label where it has one.
    fn arg(
        &self,
        alloc: Global,
        around: &Around<'_>,
        tokens: &mut Cursor<'_>,
        depth: u32,
    ) -> Result<Arg, Stop>
        requires { reads self.now depth }
        ensures { Gives (read (known around.now) depth (exprs.arg (known around.now)) tokens.old)
            result tokens.new };

    /// A statement, without the `;` after it, as the statements that it stands for.
    fn stmt(
        &self,
        alloc: Global,
        around: &Around<'_>,
        tokens: &mut Cursor<'_>,
        depth: u32,
    ) -> Result<StmtList, Stop>
        requires { reads self.now depth }
        ensures { Gives (read (known around.now) depth (stmts.stmt (known around.now)) tokens.old)
            result tokens.new };

    /// An `if` with all its arms, after the `else` of an arm with `let`.
    fn if_stmt(
        &self,
        alloc: Global,
        around: &Around<'_>,
        tokens: &mut Cursor<'_>,
        depth: u32,
    ) -> Result<Stmt, Stop>
        requires { reads self.now depth }
        ensures { Gives (read (known around.now) depth (stmts.if_stmt (known around.now))
            tokens.old) result tokens.new };
}
