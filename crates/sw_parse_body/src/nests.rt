//! Expressions, arguments and statements at any depth: each is read over closures that read what
//! stands further in by the same four functions. A nest further in has fewer nests to open, so this
//! ends.

ghost use Rattle.std.specs.Prelude.{◌<◌, true};
ghost use Rattle.sw_grammar_forms.specs.Outcome.{Gives};
ghost use Rattle.sw_grammar.specs.Exprs as exprs;
ghost use Rattle.sw_grammar.specs.Stmts as stmts;
ghost use Rattle.sw_grammar.specs.Reading.{read};
ghost use Rattle.sw_parse_parts.specs.Around.{known};

use super::parts::Parts;
use std::alloc::Global;
use sw_grammar_forms::{Cursor, Stop};
use sw_parse_parts::Around;
use sw_tree::{Arg, Expr, Stmt, StmtList};

/// An expression, in which closures may stand.
#[cycle(nests)]
pub fn expr(
    alloc: Global,
    around: &Around<'_>,
    tokens: &mut Cursor<'_>,
    depth: u32,
) -> Result<Expr, Stop>
    ensures { Gives (read (known around.now) depth (exprs.expr (known around.now) true) tokens.old) result tokens.new }
{
    let inner = Parts {
        expr: |alloc: Global, around: &Around<'_>, tokens: &mut Cursor<'_>, inside: u32| -> Result<
            Expr,
            Stop,
        >
            requires { inside < depth }
            ensures { Gives (read (known around.now) inside (exprs.expr (known around.now) true) tokens.old) result tokens.new }
        {
            prove!(inside < depth);
            expr(alloc, around, tokens, inside)
        },
        arg: |alloc: Global, around: &Around<'_>, tokens: &mut Cursor<'_>, inside: u32| -> Result<
            Arg,
            Stop,
        >
            requires { inside < depth }
            ensures { Gives (read (known around.now) inside (exprs.arg (known around.now)) tokens.old) result tokens.new }
        {
            prove!(inside < depth);
            arg(alloc, around, tokens, inside)
        },
        stmt: |alloc: Global, around: &Around<'_>, tokens: &mut Cursor<'_>, inside: u32| -> Result<
            StmtList,
            Stop,
        >
            requires { inside < depth }
            ensures { Gives (read (known around.now) inside (stmts.stmt (known around.now)) tokens.old) result tokens.new }
        {
            prove!(inside < depth);
            stmt(alloc, around, tokens, inside)
        },
        if_stmt: |alloc: Global, around: &Around<'_>, tokens: &mut Cursor<
            '_,
        >, inside: u32| -> Result<Stmt, Stop>
            requires { inside < depth }
            ensures { Gives (read (known around.now) inside (stmts.if_stmt (known around.now)) tokens.old) result tokens.new }
        {
            prove!(inside < depth);
            if_stmt(alloc, around, tokens, inside)
        },
    };
    sw_parse_expr::expr(alloc, &inner, around, tokens, depth, true)
}

/// An argument of a call.
#[cycle(nests)]
pub fn arg(
    alloc: Global,
    around: &Around<'_>,
    tokens: &mut Cursor<'_>,
    depth: u32,
) -> Result<Arg, Stop>
    ensures { Gives (read (known around.now) depth (exprs.arg (known around.now)) tokens.old) result tokens.new }
{
    let inner = Parts {
        expr: |alloc: Global, around: &Around<'_>, tokens: &mut Cursor<'_>, inside: u32| -> Result<
            Expr,
            Stop,
        >
            requires { inside < depth }
            ensures { Gives (read (known around.now) inside (exprs.expr (known around.now) true) tokens.old) result tokens.new }
        {
            prove!(inside < depth);
            expr(alloc, around, tokens, inside)
        },
        arg: |alloc: Global, around: &Around<'_>, tokens: &mut Cursor<'_>, inside: u32| -> Result<
            Arg,
            Stop,
        >
            requires { inside < depth }
            ensures { Gives (read (known around.now) inside (exprs.arg (known around.now)) tokens.old) result tokens.new }
        {
            prove!(inside < depth);
            arg(alloc, around, tokens, inside)
        },
        stmt: |alloc: Global, around: &Around<'_>, tokens: &mut Cursor<'_>, inside: u32| -> Result<
            StmtList,
            Stop,
        >
            requires { inside < depth }
            ensures { Gives (read (known around.now) inside (stmts.stmt (known around.now)) tokens.old) result tokens.new }
        {
            prove!(inside < depth);
            stmt(alloc, around, tokens, inside)
        },
        if_stmt: |alloc: Global, around: &Around<'_>, tokens: &mut Cursor<
            '_,
        >, inside: u32| -> Result<Stmt, Stop>
            requires { inside < depth }
            ensures { Gives (read (known around.now) inside (stmts.if_stmt (known around.now)) tokens.old) result tokens.new }
        {
            prove!(inside < depth);
            if_stmt(alloc, around, tokens, inside)
        },
    };
    sw_parse_expr::arg(alloc, &inner, around, tokens, depth)
}

/// A statement.
#[cycle(nests)]
pub fn stmt(
    alloc: Global,
    around: &Around<'_>,
    tokens: &mut Cursor<'_>,
    depth: u32,
) -> Result<StmtList, Stop>
    ensures { Gives (read (known around.now) depth (stmts.stmt (known around.now)) tokens.old) result tokens.new }
{
    let inner = Parts {
        expr: |alloc: Global, around: &Around<'_>, tokens: &mut Cursor<'_>, inside: u32| -> Result<
            Expr,
            Stop,
        >
            requires { inside < depth }
            ensures { Gives (read (known around.now) inside (exprs.expr (known around.now) true) tokens.old) result tokens.new }
        {
            prove!(inside < depth);
            expr(alloc, around, tokens, inside)
        },
        arg: |alloc: Global, around: &Around<'_>, tokens: &mut Cursor<'_>, inside: u32| -> Result<
            Arg,
            Stop,
        >
            requires { inside < depth }
            ensures { Gives (read (known around.now) inside (exprs.arg (known around.now)) tokens.old) result tokens.new }
        {
            prove!(inside < depth);
            arg(alloc, around, tokens, inside)
        },
        stmt: |alloc: Global, around: &Around<'_>, tokens: &mut Cursor<'_>, inside: u32| -> Result<
            StmtList,
            Stop,
        >
            requires { inside < depth }
            ensures { Gives (read (known around.now) inside (stmts.stmt (known around.now)) tokens.old) result tokens.new }
        {
            prove!(inside < depth);
            stmt(alloc, around, tokens, inside)
        },
        if_stmt: |alloc: Global, around: &Around<'_>, tokens: &mut Cursor<
            '_,
        >, inside: u32| -> Result<Stmt, Stop>
            requires { inside < depth }
            ensures { Gives (read (known around.now) inside (stmts.if_stmt (known around.now)) tokens.old) result tokens.new }
        {
            prove!(inside < depth);
            if_stmt(alloc, around, tokens, inside)
        },
    };
    sw_parse_stmt::stmt(alloc, &inner, around, tokens, depth)
}

/// An `if` with all of its arms.
#[cycle(nests)]
pub fn if_stmt(
    alloc: Global,
    around: &Around<'_>,
    tokens: &mut Cursor<'_>,
    depth: u32,
) -> Result<Stmt, Stop>
    ensures { Gives (read (known around.now) depth (stmts.if_stmt (known around.now)) tokens.old) result tokens.new }
{
    let inner = Parts {
        expr: |alloc: Global, around: &Around<'_>, tokens: &mut Cursor<'_>, inside: u32| -> Result<
            Expr,
            Stop,
        >
            requires { inside < depth }
            ensures { Gives (read (known around.now) inside (exprs.expr (known around.now) true) tokens.old) result tokens.new }
        {
            prove!(inside < depth);
            expr(alloc, around, tokens, inside)
        },
        arg: |alloc: Global, around: &Around<'_>, tokens: &mut Cursor<'_>, inside: u32| -> Result<
            Arg,
            Stop,
        >
            requires { inside < depth }
            ensures { Gives (read (known around.now) inside (exprs.arg (known around.now)) tokens.old) result tokens.new }
        {
            prove!(inside < depth);
            arg(alloc, around, tokens, inside)
        },
        stmt: |alloc: Global, around: &Around<'_>, tokens: &mut Cursor<'_>, inside: u32| -> Result<
            StmtList,
            Stop,
        >
            requires { inside < depth }
            ensures { Gives (read (known around.now) inside (stmts.stmt (known around.now)) tokens.old) result tokens.new }
        {
            prove!(inside < depth);
            stmt(alloc, around, tokens, inside)
        },
        if_stmt: |alloc: Global, around: &Around<'_>, tokens: &mut Cursor<
            '_,
        >, inside: u32| -> Result<Stmt, Stop>
            requires { inside < depth }
            ensures { Gives (read (known around.now) inside (stmts.if_stmt (known around.now)) tokens.old) result tokens.new }
        {
            prove!(inside < depth);
            if_stmt(alloc, around, tokens, inside)
        },
    };
    sw_parse_stmt::if_stmt(alloc, &inner, around, tokens, depth)
}
