//! Laws, without code: in which order the forms of the language do what they do.
ghost use Rattle.std.specs.Prelude.{◌≡◌, ℕ, ◌+◌, List, [], ◌∷◌, ◌++◌, Option, Some, None, length};
ghost use Rattle.sw_tree.specs.declared.expr.Expr.{Expr};
ghost use Rattle.sw_tree.specs.declared.expr.Expr.TheVariants as exprs;
ghost use Rattle.sw_tree.specs.declared.expr.Link.{roll-Link};
ghost use Rattle.sw_tree.specs.declared.operator.AssignOp.TheVariants as assigns;
ghost use Rattle.sw_tree.specs.declared.operator.InfixOp.TheVariants as infix_of;
ghost use Rattle.sw_tree.specs.declared.stmt.Block.{Block, roll-Block};
ghost use Rattle.sw_tree.specs.declared.stmt.CaseArm.{CaseArm};
ghost use Rattle.sw_tree.specs.declared.stmt.IfArm.{roll-IfArm};
ghost use Rattle.sw_tree.specs.declared.stmt.Stmt.{Stmt};
ghost use Rattle.sw_tree.specs.declared.stmt.Stmt.TheVariants as stmts;
ghost use Rattle.sw_graph.specs.declared.instr.BinOp.TheVariants as bin;
ghost use Rattle.sw_typing_rules.specs.declared.row.Meaning.TheVariants as means;
ghost use Rattle.sw_tree_work.specs.Facts.{Facts};
ghost use Rattle.sw_tree_work.specs.Forms.{ExprWork, all_in_order, in_order};
ghost use Rattle.sw_tree_work.specs.Meanings.{call_func, call_read, method_read, read_self};
ghost use Rattle.sw_tree_work.specs.Trees.{block_work, expr_work, stmt_work};
ghost use Rattle.sw_tree_work.specs.Work.{Again, Before, Binary, CallClosure, Decide, Finish, Jump};
ghost use Rattle.sw_tree_work.specs.Work.{Keep, Leave, Loop, Read, Replace, Return, Swap, Test, Then};
ghost use Rattle.sw_tree_work.specs.Work.{Work};

/// The left operand is found first, then the right one, and then the operator does its work.
pub fn operands_are_in_order()
    ensures { (facts : Facts) (owner : Option ℕ) (at : ℕ) (left right : Expr) (rest : Work)
        → (expr_work facts owner (exprs.Chain left
        (roll-Link (record { op = infix_of.Add; at = at; operand = right }) ∷ []))).read rest
        ≡ (expr_work facts owner left).read
        ((expr_work facts owner right).read (Then (Binary at bin.Add) rest)) }
{}

/// The right operand of `&&` is looked at if the left one is true, and that of `||` if the left one is
/// false. Else the left one is the value, and what follows goes on.
pub fn right_operands_may_be_skipped()
    ensures and { (facts : Facts) (owner : Option ℕ) (at : ℕ) (left right : Expr) (rest : Work)
        → (expr_work facts owner (exprs.Chain left
        (roll-Link (record { op = infix_of.And; at = at; operand = right }) ∷ []))).read rest
        ≡ (expr_work facts owner left).read (Then Keep (Test
        ((expr_work facts owner right).read (Then Replace (Jump rest))) rest)) }
    ensures or { (facts : Facts) (owner : Option ℕ) (at : ℕ) (left right : Expr) (rest : Work)
        → (expr_work facts owner (exprs.Chain left
        (roll-Link (record { op = infix_of.Or; at = at; operand = right }) ∷ []))).read rest
        ≡ (expr_work facts owner left).read (Then Keep (Test rest
        ((expr_work facts owner right).read (Then Replace (Jump rest))))) }
{}

/// Each argument is found before the next one.
pub fn arguments_are_in_order()
    ensures { (some more : List Before) (rest : Work)
        → all_in_order (some ++ more) rest ≡ all_in_order some (all_in_order more rest) }
{}

/// The receiver of a method, and what holds a closure, come before the arguments, and these before the
/// call.
pub fn receivers_come_first()
    ensures method { (facts : Facts) (owner : Option ℕ) (at number : ℕ) (base : ExprWork)
        (args : List Before) (rest : Work)
        → method_read facts owner at base args (Some (means.FuncOf number)) rest
        ≡ base.read (all_in_order args (call_func facts at number (1 + length args) rest)) }
    ensures own { (facts : Facts) (owner : Option ℕ) (at number : ℕ) (args : List Before)
        (rest : Work)
        → call_read facts owner at args (Some (means.OwnFunc number)) rest
        ≡ read_self facts owner
        (all_in_order args (call_func facts at number (1 + length args) rest)) }
    ensures closure { (facts : Facts) (owner : Option ℕ) (at variable : ℕ) (args : List Before)
        (rest : Work)
        → call_read facts owner at args (Some (means.Local variable)) rest
        ≡ Then (Read variable) (all_in_order args (Then (CallClosure at (length args)) rest)) }
{}

/// The value of an assignment is found before the place: `x += e` finds e, then x.
pub fn assignments_find_values_first()
    ensures set { (facts : Facts) (owner : Option ℕ) (at : ℕ) (place assigned : Expr)
        (breaks rest : Work)
        → (stmt_work facts owner (stmts.Assign at assigns.Set place assigned)).work breaks rest
        ≡ (expr_work facts owner assigned).read ((expr_work facts owner place).write rest) }
    ensures add { (facts : Facts) (owner : Option ℕ) (at : ℕ) (place assigned : Expr)
        (breaks rest : Work)
        → (stmt_work facts owner (stmts.Assign at assigns.Add place assigned)).work breaks rest
        ≡ (expr_work facts owner assigned).read ((expr_work facts owner place).read
        (Then Swap (Then (Binary at bin.Add) ((expr_work facts owner place).write rest)))) }
{}

/// Statements are done in order.
pub fn statements_are_in_order()
    ensures { (facts : Facts) (owner : Option ℕ) (stmts : List Stmt) (breaks rest : Work)
        → (block_work facts owner (roll-Block (record { stmts = stmts }))).work breaks rest
        ≡ in_order (λ stmt. (stmt_work facts owner stmt).work breaks) stmts rest }
{}

/// The condition of an `if` chooses between its block and its `else`, each of which ends with a step.
/// An `else` that isn't written is nothing but that step.
pub fn conditions_choose()
    ensures both { (facts : Facts) (owner : Option ℕ) (at : ℕ) (cond : Expr) (body other : Block)
        (breaks rest : Work)
        → (stmt_work facts owner (stmts.If
        (roll-IfArm (record { at = at; cond = cond; body = body }) ∷ []) (Some other))).work breaks rest
        ≡ (expr_work facts owner cond).read (Test
        ((block_work facts owner body).work breaks (Jump rest))
        ((block_work facts owner other).work breaks (Jump rest))) }
    ensures one { (facts : Facts) (owner : Option ℕ) (at : ℕ) (cond : Expr) (body : Block)
        (breaks rest : Work)
        → (stmt_work facts owner (stmts.If
        (roll-IfArm (record { at = at; cond = cond; body = body }) ∷ []) None)).work breaks rest
        ≡ (expr_work facts owner cond).read (Test
        ((block_work facts owner body).work breaks (Jump rest)) (Jump rest)) }
{}

/// In the body of a loop `break` goes on with what follows the loop, and `continue` with the condition,
/// with which the body goes on at its end too.
pub fn loops_are_left_by_break()
    ensures loops { (facts : Facts) (owner : Option ℕ) (at : ℕ) (cond : Expr) (body : Block)
        (breaks rest : Work)
        → (stmt_work facts owner (stmts.While at cond body)).work breaks rest
        ≡ Loop ((expr_work facts owner cond).read Decide)
        ((block_work facts owner body).work Leave Again) rest }
    ensures breaks { (facts : Facts) (owner : Option ℕ) (at : ℕ) (breaks rest : Work)
        → (stmt_work facts owner (stmts.Break at)).work breaks rest ≡ breaks }
    ensures continues { (facts : Facts) (owner : Option ℕ) (at : ℕ) (breaks rest : Work)
        → (stmt_work facts owner (stmts.Continue at)).work breaks rest ≡ Again }
{}

/// A `return` ends the body: nothing that stands after it is done.
pub fn returns_end_bodies()
    ensures value { (facts : Facts) (owner : Option ℕ) (at : ℕ) (given : Expr) (breaks rest : Work)
        → (stmt_work facts owner (stmts.Return at (Some given))).work breaks rest
        ≡ (expr_work facts owner given).read Return }
    ensures nothing { (facts : Facts) (owner : Option ℕ) (at : ℕ) (breaks rest : Work)
        → (stmt_work facts owner (stmts.Return at None)).work breaks rest ≡ Finish }
{}

/// The subject of a `switch` is found once, before any case is looked at.
pub fn subjects_are_found_once()
    ensures { (facts : Facts) (owner : Option ℕ) (at : ℕ) (subject : Expr) (arms : List CaseArm)
        (otherwise : Option Block) (breaks rest : Work)
        → (chosen : Work)
        × ((stmt_work facts owner (stmts.Switch at subject arms otherwise)).work breaks rest
        ≡ (expr_work facts owner subject).read chosen) }
{}
