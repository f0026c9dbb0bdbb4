//! Where statements stand, and how several go.
ghost use Rattle.std.specs.Prelude.{◌≡◌, ◌&&◌, ◌||◌, false};
ghost use Rattle.sw_typing_rules.specs.Statements.{in_body, in_loop, in_switch, is_one, in_branch};
ghost use Rattle.sw_typing_rules.specs.Statements.{with_only};

use sw_tree::Stmt;
use sw_typing_rules::Inside;
use sw_typing_steps::Went;

/// In a block of an `if` or a `switch`.
pub fn in_branch(inside: Inside) -> Inside
    ensures { result ≡ in_branch inside }
{
    Inside {
        only: false,
        ..inside
    }
}

/// In a loop.
pub fn in_loop(inside: Inside) -> Inside
    ensures { result ≡ in_loop inside }
{
    Inside {
        only: false,
        loops: true,
        leaves: true,
        ..inside
    }
}

/// In an arm of a `switch`.
pub fn in_switch(inside: Inside) -> Inside
    ensures { result ≡ in_switch inside }
{
    Inside {
        only: false,
        leaves: true,
        ..inside
    }
}

/// Whether it is one statement.
pub fn is_one(stmts: &[Stmt]) -> bool
    ensures { result ≡ is_one stmts.now }
{
    match stmts {
        [_] => true,
        [] | [_, _, ..] => false,
    }
}

/// In a block of one statement or not.
pub fn with_only(inside: Inside, one: bool) -> Inside
    ensures { result ≡ with_only inside one }
{
    Inside {
        only: inside.only && one,
        ..inside
    }
}

/// In a body, of an initialiser or not.
pub fn in_body(owner: Option<u32>, init: bool) -> Inside
    ensures { result ≡ in_body owner init }
{
    Inside {
        owner,
        only: true,
        loops: false,
        leaves: false,
        init,
    }
}

/// Statements after each other.
pub fn then(one: Went, next: Went) -> Went
    ensures { result ≡ record {
      fine = one.fine && next.fine;
      ends = one.ends || next.ends;
      breaks = one.breaks || next.breaks;
    } }
{
    Went {
        fine: one.fine && next.fine,
        ends: one.ends || next.ends,
        breaks: one.breaks || next.breaks,
    }
}

/// Branches of which one is taken.
pub fn beside(one: Went, next: Went) -> Went
    ensures { result ≡ record {
      fine = one.fine && next.fine;
      ends = one.ends && next.ends;
      breaks = one.breaks || next.breaks;
    } }
{
    Went {
        fine: one.fine && next.fine,
        ends: one.ends && next.ends,
        breaks: one.breaks || next.breaks,
    }
}
