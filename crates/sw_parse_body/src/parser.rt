//! The parser of bodies.

use super::nests;
use std::alloc::Global;
use sw_grammar_forms::{Cursor, Stop};
use sw_parse_decl::Bodies;
use sw_parse_expr as exprs;
use sw_parse_expr::Inner;
use sw_parse_parts::Around;
use sw_parse_stmt as stmts;
use sw_tree::{Arg, Block, Expr, Stmt, StmtList};

/// The parser of the values of variables and of the blocks of functions.
pub struct Parser;

impl Inner for Parser {
    ghost reads = { λ parser depth. Unit {0} };

    fn expr(
        &self,
        alloc: Global,
        around: &Around<'_>,
        tokens: &mut Cursor<'_>,
        depth: u32,
    ) -> Result<Expr, Stop> {
        nests::expr(alloc, around, tokens, depth)
    }

    fn arg(
        &self,
        alloc: Global,
        around: &Around<'_>,
        tokens: &mut Cursor<'_>,
        depth: u32,
    ) -> Result<Arg, Stop> {
        nests::arg(alloc, around, tokens, depth)
    }

    fn stmt(
        &self,
        alloc: Global,
        around: &Around<'_>,
        tokens: &mut Cursor<'_>,
        depth: u32,
    ) -> Result<StmtList, Stop> {
        nests::stmt(alloc, around, tokens, depth)
    }

    fn if_stmt(
        &self,
        alloc: Global,
        around: &Around<'_>,
        tokens: &mut Cursor<'_>,
        depth: u32,
    ) -> Result<Stmt, Stop> {
        nests::if_stmt(alloc, around, tokens, depth)
    }
}

impl Bodies for Parser {
    fn value(
        &self,
        alloc: Global,
        around: &Around<'_>,
        tokens: &mut Cursor<'_>,
        depth: u32,
    ) -> Result<Expr, Stop> {
        stmts::value(alloc, self, around, tokens, depth)
    }

    fn value_for(
        &self,
        alloc: Global,
        around: &Around<'_>,
        tokens: &mut Cursor<'_>,
        depth: u32,
        wanted: Option<&str>,
    ) -> Result<Expr, Stop> {
        let given = exprs::value_for(alloc, self, around, tokens, depth, wanted)?;
        Ok(given.value())
    }

    fn block(
        &self,
        alloc: Global,
        around: &Around<'_>,
        tokens: &mut Cursor<'_>,
        depth: u32,
    ) -> Result<Block, Stop> {
        stmts::block(alloc, self, around, tokens, depth)
    }
}
