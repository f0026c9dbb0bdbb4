//! The arms of an `if` while it is read.

ghost use Rattle.std.specs.Prelude.{◌≡◌, IfOk};
ghost use Rattle.sw_grammar.specs.Stmts as stmts;
ghost use Rattle.sw_grammar.specs.Stmts.{last_stmt};
ghost use Rattle.sw_parse_stmt.specs.Arms.{arms_of};

use std::alloc::{AllocError, Global};
use std::marker::Model;
use sw_list::ListOf;
use sw_tree::{Block, IfArmList, Stmt};

/// What comes after the arms that are read.
#[derive(Drop)]
pub enum Next {
    /// Another arm, after the `if` at this position.
    Arm { at: u32 },
    Nothing,
    /// The block after the last `else`.
    Other(Block),
    /// An arm with `let`, and all that comes after it.
    Rest(Stmt),
}

/// The arms that are read.
#[derive(Drop)]
pub struct Arms {
    arms: IfArmList,
    next: Next,
}

impl Model for Arms {
    ghost use Rattle.std.specs.Coded.{codes};
    ghost use Rattle.sw_tree.specs.contracts.stmt.Block as block;
    ghost use Rattle.sw_tree.specs.contracts.stmt.IfArm as if_arm;
    ghost use Rattle.sw_tree.specs.contracts.stmt.Stmt as stmt;
    ghost use Rattle.sw_grammar.specs.Stmts.{Arms};
    ghost use Rattle.sw_parse_stmt.specs.Arms.{arms_of};

    ghost Value = { Arms };

    ghost coded = { Prim.hlevel
        (codes, block.the_row.coded, if_arm.the_row.coded, stmt.the_row.coded) };

    ghost view = { λ a. arms_of a.arms a.next };
}

impl Arms {
    pub fn new(arms: IfArmList, next: Next) -> Arms
        ensures { result ≡ arms_of arms next }
    {
        Arms { arms, next }
    }

    pub fn arms(self) -> IfArmList
        ensures { result ≡ self.arms }
    {
        self.arms
    }

    /// Whether another arm comes.
    pub fn has_next(&self) -> bool
        ensures { result ≡ stmts.has_next self.now }
    {
        match &self.next {
            Next::Arm { at: _ } => true,
            Next::Nothing | Next::Other(_) | Next::Rest(_) => false,
        }
    }

    /// Where the `if` of the next arm stands, or 0 where none comes.
    pub fn place(&self) -> u32
        ensures { result ≡ stmts.place_of self.now.next }
    {
        match &self.next {
            Next::Arm { at } => *at,
            Next::Nothing | Next::Other(_) | Next::Rest(_) => 0,
        }
    }

    /// The `if` with these arms.
    pub fn stmt(self, alloc: Global) -> Result<Stmt, AllocError>
        ensures { IfOk result (λ tree. tree ≡ stmts.if_of self) }
    {
        let Arms { arms, next } = self;
        match next {
            Next::Arm { at: _ } | Next::Nothing => Ok(Stmt::If {
                arms,
                otherwise: None,
            }),
            Next::Other(body) => Ok(Stmt::If {
                arms,
                otherwise: Some(body),
            }),
            Next::Rest(rest) => with_rest(alloc, arms, rest),
        }
    }
}

/// An `if` of these arms and an arm with `let`. Where it begins with that one, it is that one.
fn with_rest(alloc: Global, arms: IfArmList, rest: Stmt) -> Result<Stmt, AllocError>
    ensures { IfOk result (λ tree. tree ≡ stmts.if_with arms (last_stmt rest)) }
{
    if arms.is_empty() {
        return Ok(rest);
    }
    let stmts = ListOf::one(alloc, rest)?;
    Ok(Stmt::If {
        arms,
        otherwise: Some(Block { stmts }),
    })
}
