//! Laws, without code: how a program's global variables get their first values.
ghost use Rattle.std.specs.Prelude.{◌≡◌, ℕ, List, Some, Contains, slice_get};
ghost use Rattle.sw_tree.specs.declared.decl.Decl.{Decl};
ghost use Rattle.sw_graph.specs.declared.function.Function.{Function};
ghost use Rattle.sw_graph.specs.declared.graph.Graph.{Graph};
ghost use Rattle.sw_graph.specs.declared.instr.Instr.{Instr};
ghost use Rattle.sw_graph.specs.Placed.{FunctionAt, GivesFirst, IsAlone, IsFirst};
ghost use Rattle.sw_graph.specs.Points.{Middle, point_in};
ghost use Rattle.sw_decls.specs.declared.signature.AsyncDefault.{AsyncDefault};
ghost use Rattle.sw_typing_rules.specs.Worlds.{World};
ghost use Rattle.sw_graph.specs.Stores.{StoresFirst};
ghost use Rattle.sw_lower_total_facts.specs.Programs.{IsWelltyped};
ghost use Rattle.sw_lower_first_facts.specs.Programs.{IsGraph};

/// In the graph of a program that keeps the rules on declarations and on types the entry, and each
/// function that gives a global variable its first value, takes nothing and is isolated to no actor
/// or to a global actor. Such a function gives the variable its value before it returns, on every
/// way. It reads no global variable and makes no task, and neither does any function that it leads
/// to by calls and closures.
pub fn first_values_are_given()
    ensures entry { (decls : List Decl) (rule : AsyncDefault) (world : World) (graph : Graph)
        → IsWelltyped decls rule world → IsGraph world decls graph
        → FunctionAt graph graph.entry IsFirst }
    ensures firsts { (decls : List Decl) (rule : AsyncDefault) (world : World) (graph : Graph)
        → IsWelltyped decls rule world → IsGraph world decls graph → (f : ℕ)
        → Contains graph.starts f → FunctionAt graph f IsFirst }
    ensures values { (decls : List Decl) (rule : AsyncDefault) (world : World) (graph : Graph)
        → IsWelltyped decls rule world → IsGraph world decls graph → (g f : ℕ)
        → slice_get graph.starts g ≡ Some f → FunctionAt graph f (StoresFirst g) }
    ensures alone { (decls : List Decl) (rule : AsyncDefault) (world : World) (graph : Graph)
        → IsWelltyped decls rule world → IsGraph world decls graph → (f p : ℕ) (body : Function)
        (instr : Instr) → GivesFirst graph f → slice_get graph.functions f ≡ Some body
        → point_in body p ≡ Some (Middle instr) → IsAlone instr }
{}
