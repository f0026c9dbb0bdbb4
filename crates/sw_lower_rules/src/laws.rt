//! Laws, without code: what the definitions of lowering say of all programs.
ghost use Rattle.std.specs.Prelude.{◌≡◌, ℕ, ◌+◌, ◌<◌, ℤ, IsTrue, List, [], ◌∷◌, Option, Some};
ghost use Rattle.std.specs.Prelude.{slice_get, ◌≤◌, ◌⊎◌, length, Bool};
ghost use Rattle.sw_tree.specs.declared.decl.Decl.{Decl};
ghost use Rattle.sw_tree.specs.declared.expr.Expr.TheVariants as exprs;
ghost use Rattle.sw_types.specs.declared.ty.Ty.{Ty};
ghost use Rattle.sw_types.specs.declared.ty.Ty.TheVariants as types;
ghost use Rattle.sw_graph.specs.declared.function.Function.{Function};
ghost use Rattle.sw_graph.specs.declared.graph.Graph.{Graph};
ghost use Rattle.sw_graph.specs.declared.function.RegKind.TheVariants.{Plain};
ghost use Rattle.sw_graph.specs.declared.instr.BinOp.{BinOp};
ghost use Rattle.sw_graph.specs.declared.instr.Instr.TheVariants as instr;
ghost use Rattle.sw_graph.specs.declared.instr.Last.TheVariants as last;
ghost use Rattle.sw_graph.specs.declared.instr.Literal.TheVariants as literals;
ghost use Rattle.sw_graph.specs.declared.instr.Operand.{Operand};
ghost use Rattle.sw_decl_words.specs.declared.placed.Placed.{Placed};
ghost use Rattle.sw_typing_rules.specs.Worlds.{World};
ghost use Rattle.sw_isolation_rules.specs.Answers.{Answers};
ghost use Rattle.sw_lower_plans.specs.Plan.{Ended, Place};
ghost use Rattle.sw_lower_plans.specs.declared.name.FunctionName.{FunctionName};
ghost use Rattle.sw_lower_code.specs.Code.{Code};
ghost use Rattle.sw_lower_rules.specs.Bodies.{IsFirstTooLarge, Lowered, program_bodies, tables_of};
ghost use Rattle.sw_lower_rules.specs.Expressions.{binary, both, either};
ghost use Rattle.sw_lower_rules.specs.Statements.{expr_code};
ghost use Rattle.sw_lower_rules.specs.Tables.{Isolation, Tables, is_named, number_in};
ghost use Rattle.sw_lower_rules.specs.Uses.{operand};

/// A function's number is a place at which its name stands among the names of the functions.
pub fn numbers_are_places()
    ensures within { (names : List FunctionName) (name : FunctionName) (number : ℕ)
        → number_in names name ≡ Some number → number < length names }
    ensures named { (names : List FunctionName) (name one : FunctionName) (number : ℕ)
        → number_in names name ≡ Some number → slice_get names number ≡ Some one
        → IsTrue (is_named one name) }
{}

/// A literal takes the next register and one instruction, and nothing else.
pub fn literals_take_one_register()
    ensures int { (tables : Tables) (owner : Option ℕ) (at : ℕ) (value : ℤ) (place : Place)
        → (expr_code tables owner (exprs.Int at value)).read.plan place ≡ record {
          value = operand place.regs at;
          regs = Plain types.Int ∷ [];
          made = [];
          writes = record {
            block = place.here;
            instr = instr.Const at place.regs (literals.Int value);
          } ∷ [];
          lasts = [];
          there = place.here;
          vars = [];
        } }
    ensures bool { (tables : Tables) (owner : Option ℕ) (at : ℕ) (value : Bool) (place : Place)
        → (expr_code tables owner (exprs.Bool at value)).read.plan place ≡ record {
          value = operand place.regs at;
          regs = Plain types.Bool ∷ [];
          made = [];
          writes = record {
            block = place.here;
            instr = instr.Const at place.regs (literals.Bool value);
          } ∷ [];
          lasts = [];
          there = place.here;
          vars = [];
        } }
{}

/// The register of what an infix operator gives is made after those of its operands.
pub fn results_follow_operands()
    ensures { (at : ℕ) (op : BinOp) (ty : Ty) (right : Code Operand) (left : Operand)
        (place : Place)
        → ((binary at op ty right left).plan place).value
        ≡ operand (place.regs + length (right.plan place).regs) at }
{}

/// `&&` goes on with the right operand where the left one is true, and `||` where it is false.
pub fn the_right_operand_is_skipped()
    ensures and { (at : ℕ) (right : Code Operand) (left : Operand) (place : Place)
        → (rest : List Ended) × (((both at right left).plan place).lasts ≡ record {
          block = place.here;
          last = last.Branch left place.blocks (place.blocks + 1);
        } ∷ rest) }
    ensures or { (at : ℕ) (right : Code Operand) (left : Operand) (place : Place)
        → (rest : List Ended) × (((either at right left).plan place).lasts ≡ record {
          block = place.here;
          last = last.Branch left (place.blocks + 1) place.blocks;
        } ∷ rest) }
{}

/// The graph of a program has as many functions as the program has bodies, and their keys never
/// fall.
pub fn functions_are_in_order()
    ensures count { (world : World) (answers : Answers) (isolation : Isolation)
        (decls : List Decl) (graph : Graph) → Lowered world answers isolation decls graph
        → length graph.functions
        ≡ length (program_bodies (tables_of world answers isolation decls) decls) }
    ensures rising { (world : World) (answers : Answers) (isolation : Isolation)
        (decls : List Decl) (graph : Graph) → Lowered world answers isolation decls graph
        → (i j : ℕ) (one other : Function) → i ≤ j → slice_get graph.functions i ≡ Some one
        → slice_get graph.functions j ≡ Some other → one.key ≤ other.key }
{}

/// Each program has one first function that is too large, or none. The code says what it has too
/// many of.
pub fn programs_have_one_first_too_large()
    ensures some { (tables : Tables) (decls : List Decl)
        → (first : Option Placed) × IsFirstTooLarge tables decls first }
    ensures one { (tables : Tables) (decls : List Decl) (one other : Option Placed)
        → IsFirstTooLarge tables decls one → IsFirstTooLarge tables decls other → one ≡ other }
    ensures codes { (tables : Tables) (decls : List Decl) (one : Placed)
        → IsFirstTooLarge tables decls (Some one) → (one.code ≡ 510) ⊎ (one.code ≡ 511) }
{}
