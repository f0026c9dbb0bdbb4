//! A parser of what stands in nests that is made of closures.

ghost use Rattle.std.specs.Prelude.{true};
ghost use Rattle.sw_grammar_forms.specs.Outcome.{Gives};
ghost use Rattle.sw_grammar.specs.Exprs as exprs;
ghost use Rattle.sw_grammar.specs.Stmts as stmts;
ghost use Rattle.sw_grammar.specs.Reading.{read};
ghost use Rattle.sw_parse_parts.specs.Around.{known};

use std::alloc::Global;
use sw_grammar_forms::{Cursor, Stop};
use sw_parse_expr::Inner;
use sw_parse_parts::Around;
use sw_tree::{Arg, Expr, Stmt, StmtList};

/// Closures that read expressions, arguments, statements and `if` statements.
#[derive(Drop)]
pub struct Parts<E, A, S, F> {
    pub expr: E,
    pub arg: A,
    pub stmt: S,
    pub if_stmt: F,
}

impl<E, A, S, F> Inner for Parts<E, A, S, F>
where
    E: Fn(Global, &Around<'_>, &mut Cursor<'_>, u32) -> Result<Expr, Stop>,
    A: Fn(Global, &Around<'_>, &mut Cursor<'_>, u32) -> Result<Arg, Stop>,
    S: Fn(Global, &Around<'_>, &mut Cursor<'_>, u32) -> Result<StmtList, Stop>,
    F: Fn(Global, &Around<'_>, &mut Cursor<'_>, u32) -> Result<Stmt, Stop>,
{
    ghost reads = { λ parts depth.
        ((a : _) (n : _) (t : _) → E.pre parts.expr a n t depth)
        × ((a : _) (n : _) (t : _) (r : _) (u : _) → E.post parts.expr a n t depth r u
        → Gives (read (known n.now) depth (exprs.expr (known n.now) true) t.now) r u.now)
        × ((a : _) (n : _) (t : _) → A.pre parts.arg a n t depth)
        × ((a : _) (n : _) (t : _) (r : _) (u : _) → A.post parts.arg a n t depth r u
        → Gives (read (known n.now) depth (exprs.arg (known n.now)) t.now) r u.now)
        × ((a : _) (n : _) (t : _) → S.pre parts.stmt a n t depth)
        × ((a : _) (n : _) (t : _) (r : _) (u : _) → S.post parts.stmt a n t depth r u
        → Gives (read (known n.now) depth (stmts.stmt (known n.now)) t.now) r u.now)
        × ((a : _) (n : _) (t : _) → F.pre parts.if_stmt a n t depth)
        × ((a : _) (n : _) (t : _) (r : _) (u : _) → F.post parts.if_stmt a n t depth r u
        → Gives (read (known n.now) depth (stmts.if_stmt (known n.now)) t.now) r u.now) };

    fn expr(
        &self,
        alloc: Global,
        around: &Around<'_>,
        tokens: &mut Cursor<'_>,
        depth: u32,
    ) -> Result<Expr, Stop> {
        (self.expr)(alloc, around, tokens, depth)
    }

    fn arg(
        &self,
        alloc: Global,
        around: &Around<'_>,
        tokens: &mut Cursor<'_>,
        depth: u32,
    ) -> Result<Arg, Stop> {
        (self.arg)(alloc, around, tokens, depth)
    }

    fn stmt(
        &self,
        alloc: Global,
        around: &Around<'_>,
        tokens: &mut Cursor<'_>,
        depth: u32,
    ) -> Result<StmtList, Stop> {
        (self.stmt)(alloc, around, tokens, depth)
    }

    fn if_stmt(
        &self,
        alloc: Global,
        around: &Around<'_>,
        tokens: &mut Cursor<'_>,
        depth: u32,
    ) -> Result<Stmt, Stop> {
        (self.if_stmt)(alloc, around, tokens, depth)
    }
}
