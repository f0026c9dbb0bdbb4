//! Laws, without code: what the calls and the tasks of programs are of, and which give an actor.
ghost use Rattle.std.specs.Prelude.{◌≡◌, ℕ, List, None, Some, slice_get};
ghost use Rattle.sw_tree.specs.Contents.{AreKeyed};
ghost use Rattle.sw_tree.specs.declared.decl.Decl.{Decl};
ghost use Rattle.sw_types.specs.declared.isolation.CallKind.TheVariants.{Strong};
ghost use Rattle.sw_types.specs.declared.isolation.Iso.TheVariants.{Own};
ghost use Rattle.sw_graph.specs.Points.{Middle, point_in};
ghost use Rattle.sw_graph.specs.declared.function.Function.{Function};
ghost use Rattle.sw_graph.specs.declared.instr.Instr.{Instr};
ghost use Rattle.sw_graph.specs.declared.instr.Instr.TheVariants.{Call, NewTask};
ghost use Rattle.sw_graph.specs.declared.instr.Operand.{Operand};
ghost use Rattle.sw_decls.specs.Declaring.{IsFirstBreach};
ghost use Rattle.sw_decls.specs.declared.signature.AsyncDefault.{AsyncDefault};
ghost use Rattle.sw_typing_rules.specs.Worlds.{IsWorldOf, World};
ghost use Rattle.sw_lower_code.specs.Whole.{Body};
ghost use Rattle.sw_lower_rules.specs.Bodies.{AreMade, AreNumbered, AreOrdered, functions_of};
ghost use Rattle.sw_lower_rules.specs.Bodies.{numbers_of, program_bodies};
ghost use Rattle.sw_lower_rules.specs.Tables.{Tables};
ghost use Rattle.sw_lower_total_facts.specs.Programs.{IsWelltyped, noted_tables};
ghost use Rattle.sw_lower_call_facts.specs.Calls.{IsOfBody};
ghost use Rattle.sw_lower_call_facts.specs.Given.{TakesAt};
ghost use Rattle.sw_lower_call_facts.specs.Owning.{OwnKey};

/// Each call in the functions of a program is that of a getter; or it is of the function, the method
/// or the initialiser that is meant at its key, and has the kind that is noted there. Each task runs
/// a body of the program that is made as that of a task is, without parameters.
pub fn bodies_call_what_is_meant()
    ensures { (tables : Tables) (decls : List Decl) (ordered : List Body) → AreKeyed decls
        → IsFirstBreach decls None → AreOrdered tables decls ordered → AreMade ordered → (n p : ℕ)
        (function : Function) (instr : Instr)
        → slice_get (functions_of ordered) n ≡ Some function
        → point_in function p ≡ Some (Middle instr)
        → IsOfBody tables (numbers_of ordered) (program_bodies tables decls) instr }
{}

/// A call that leaves its actor's executor for that of another gives an actor: a function,
/// a method or a getter that is called so and is isolated to `self` takes an actor first. A task
/// that is isolated to `self` takes one first too.
pub fn calls_give_their_actors()
    ensures calls { (decls : List Decl) (rule : AsyncDefault) (world : World)
        (ordered : List Body) → AreKeyed decls → IsFirstBreach decls None
        → IsWorldOf decls rule world → AreOrdered (noted_tables world decls) decls ordered
        → AreNumbered ordered → AreMade ordered → (n p at r f : ℕ) (ss : List Operand)
        (function : Function) → slice_get (functions_of ordered) n ≡ Some function
        → point_in function p ≡ Some (Middle (Call at r Strong f ss))
        → TakesAt world.shapes (functions_of ordered) f }
    ensures tasks { (decls : List Decl) (rule : AsyncDefault) (world : World)
        (ordered : List Body) → IsWelltyped decls rule world
        → AreOrdered (noted_tables world decls) decls ordered → AreNumbered ordered
        → AreMade ordered → (n p at r f : ℕ) (cs : List Operand) (function : Function)
        → slice_get (functions_of ordered) n ≡ Some function
        → point_in function p ≡ Some (Middle (NewTask at r f cs))
        → TakesAt world.shapes (functions_of ordered) f }
{}

/// A task that is isolated to `self` stands in the declaration of an actor.
pub fn own_tasks_stand_in_actors()
    ensures { (decls : List Decl) (rule : AsyncDefault) (world : World) (ordered : List Body)
        → AreKeyed decls → IsFirstBreach decls None → IsWorldOf decls rule world
        → AreOrdered (noted_tables world decls) decls ordered → AreNumbered ordered
        → AreMade ordered → (n p at r f : ℕ) (cs : List Operand) (function task : Function)
        → slice_get (functions_of ordered) n ≡ Some function
        → point_in function p ≡ Some (Middle (NewTask at r f cs))
        → slice_get (functions_of ordered) f ≡ Some task → task.iso ≡ Own
        → OwnKey decls task.key }
{}
