//! Laws, without code: what is known of a node is one thing, and something is known of each.
ghost use Rattle.std.specs.Prelude.{◌≡◌, ◌≤◌, ℕ, Bool, true, List, None, Option, Contains, is_some};
ghost use Rattle.sw_tree.specs.Contents.{AreKeyed};
ghost use Rattle.sw_tree.specs.NodeKey.{expr_key};
ghost use Rattle.sw_tree.specs.declared.decl.Decl.{Decl};
ghost use Rattle.sw_decl_words.specs.declared.placed.Placed.{Placed};
ghost use Rattle.sw_decls.specs.Declaring.{IsDeclared};
ghost use Rattle.sw_decls.specs.declared.declaring.Decls.{Decls};
ghost use Rattle.sw_decls.specs.declared.signature.AsyncDefault.{AsyncDefault};
ghost use Rattle.sw_typing_rules.specs.Programs.{BodyOf, IsFirstIll, IsIll, Says, ValueOf};
ghost use Rattle.sw_typing_rules.specs.Programs.{bodies_from};
ghost use Rattle.sw_typing_rules.specs.Programs.{body_state, said, value_setting, values_from};
ghost use Rattle.sw_typing_rules.specs.declared.row.Row.{Row};
ghost use Rattle.sw_tree.specs.declared.expr.Expr.{Expr};
ghost use Rattle.sw_tree.specs.declared.stmt.Stmt.{Stmt};
ghost use Rattle.sw_typing_rules.specs.Expressions.{Judged};
ghost use Rattle.sw_typing_rules.specs.Judges.{Judges, Leaves, LeavesBlock};
ghost use Rattle.sw_types.specs.Accepts.{IsAcceptedAs, is_marked};
ghost use Rattle.sw_types.specs.declared.ty.Ty.{Ty};
ghost use Rattle.sw_typing_rules.specs.Fits.{fits};
ghost use Rattle.sw_typing_rules.specs.Judging.{judge, leave};
ghost use Rattle.sw_typing_rules.specs.Statements.{Left, State, in_body};
ghost use Rattle.sw_typing_rules.specs.declared.scope.Inside.{Inside};
ghost use Rattle.sw_typing_rules.specs.Typedness.{state_typed, vars_typed};
ghost use Rattle.sw_typing_rules.specs.Verdicts.{all_well};
ghost use Rattle.sw_typing_rules.specs.Words.{Setting};
ghost use Rattle.sw_typing_rules.specs.Worlds.{IsWorldOf, World, world_of};

/// An expression is judged in one way where it stands: it has one type or none, one meaning or
/// none, and the same ill nodes inside.
#[tactic(auto, using(crate::proofs::Unique::one_judged))]
pub fn expressions_are_judged_once()
    ensures { (world : World) (setting : Setting) (expected : Bool) (expr : Expr)
        (one other : Judged) → Judges world setting expected expr one
        → Judges world setting expected expr other → one ≡ other }
{}

/// Each expression is judged, as the function over trees says.
#[tactic(auto, using(crate::proofs::Sound::judges))]
pub fn expressions_are_judged()
    ensures { (world : World) (setting : Setting) (expected : Bool) (expr : Expr)
        → Judges world setting expected expr (judge world expr setting expected) }
{}

/// A statement leaves one thing where it stands.
#[tactic(auto, using(crate::proofs::Unique::one_left))]
pub fn statements_leave_one_thing()
    ensures { (world : World) (inside : Inside) (state : State) (stmt : Stmt) (one other : Left)
        → Leaves world inside state stmt one → Leaves world inside state stmt other
        → one ≡ other }
{}

/// Each statement leaves something, as the function over trees says.
#[tactic(auto, using(crate::proofs::Sound::leaves))]
pub fn statements_leave_something()
    ensures { (world : World) (inside : Inside) (state : State) (stmt : Stmt)
        → Leaves world inside state stmt (leave world stmt inside state) }
{}

/// What the relation says of the nodes of a program is what the function over trees says.
#[tactic(auto, using(crate::proofs::Saying::said_is, crate::proofs::Saying::is_said))]
pub fn programs_say_what_is_said()
    ensures said { (world : World) (decls : List Decl) (row : Row) → Says world decls row
        → Contains (said world decls) row }
    ensures says { (world : World) (decls : List Decl) (row : Row)
        → Contains (said world decls) row → Says world decls row }
{}

/// A program has a first ill node or none.
#[tactic(auto, using(crate::proofs::Saying::some_first_ill))]
pub fn programs_have_a_first_ill_node()
    ensures { (world : World) (decls : List Decl)
        → (first : Option Placed) × IsFirstIll world decls first }
{}

/// A program has one first ill node, or none.
#[tactic(auto, using(crate::proofs::Saying::one_first_ill))]
pub fn programs_have_one_first_ill_node()
    ensures { (world : World) (decls : List Decl) (one other : Option Placed)
        → IsFirstIll world decls one → IsFirstIll world decls other → one ≡ other }
{}

/// An expression in which no node is ill has a type where each variable has one.
#[tactic(auto, using(crate::proofs::Welltyped::typed_expr))]
pub fn well_expressions_have_types()
    ensures { (world : World) (setting : Setting) (expected : Bool) (expr : Expr) (judged : Judged)
        → Judges world setting expected expr judged → vars_typed setting.vars ≡ true
        → all_well judged.rows ≡ true → is_some judged.ty ≡ true }
{}

/// Of a statement in which no node is ill all that it holds has a type, where the variables before
/// it have types.
#[tactic(auto, using(crate::proofs::Welltyped::fine_stmt))]
pub fn well_statements_have_types()
    ensures { (world : World) (inside : Inside) (state : State) (stmt : Stmt) (left : Left)
        → Leaves world inside state stmt left → state_typed state ≡ true
        → all_well left.rows ≡ true → (left.fine ≡ true) × (state_typed left.state ≡ true) }
{}

/// In a program without an ill node all that each body holds has a type, and each first value.
pub fn well_programs_have_types()
    ensures bodies { (world : World) (decls : List Decl) → IsFirstIll world decls None
        → (body : BodyOf) (left : Left) → Contains (bodies_from world 0 decls) body
        → LeavesBlock world (in_body body.owner body.init) (body_state world body) body.block left
        → left.fine ≡ true }
    ensures values { (world : World) (decls : List Decl) → IsFirstIll world decls None
        → (value : ValueOf) (judged : Judged) → Contains (values_from world 0 decls) value
        → Judges world (value_setting value) (is_marked value.wanted) value.value judged
        → is_some judged.ty ≡ true }
{}

/// The test of types says where a value may go (SE-0302).
#[tactic(auto, using(crate::proofs::Acceptance::fits_accepts, crate::proofs::Acceptance::accepts_fits))]
pub fn types_fit_where_they_are_accepted()
    ensures accepted { (from to : Ty) → fits from to ≡ true → IsAcceptedAs from to }
    ensures fits { (from to : Ty) → IsAcceptedAs from to → fits from to ≡ true }
{}

/// What is known of an expression has the key of the expression's own node.
#[tactic(auto, using(crate::proofs::JudgedKeys::judged_key))]
pub fn expressions_are_judged_by_key()
    ensures { (world : World) (setting : Setting) (expected : Bool) (expr : Expr) (judged : Judged)
        → Judges world setting expected expr judged → judged.key ≡ expr_key expr }
{}

/// What a program declares is one thing for the rules of types where its nodes have keys of their
/// own, as those of each program have.
pub fn programs_have_one_world()
    ensures some { (decls : List Decl) (rule : AsyncDefault)
        → (world : World) × IsWorldOf decls rule world }
    ensures one { (decls : List Decl) (rule : AsyncDefault) (one other : World) → AreKeyed decls
        → IsWorldOf decls rule one → IsWorldOf decls rule other → one ≡ other }
    ensures declared { (decls : List Decl) (rule : AsyncDefault) (made : Decls)
        → IsDeclared decls rule made → IsWorldOf decls rule (world_of made) }
    ensures declared_once { (decls : List Decl) (rule : AsyncDefault) (one other : Decls)
        → AreKeyed decls → IsDeclared decls rule one → IsDeclared decls rule other
        → world_of one ≡ world_of other }
{}

/// The codes of ill nodes are those of types.
pub fn ill_nodes_have_codes_of_types()
    ensures { (world : World) (decls : List Decl) (at code : ℕ) → IsIll world decls at code
        → (401 ≤ code) × (code ≤ 408) }
{}
