//! Laws, without code: what the definitions of isolation say of all programs.
ghost use Rattle.std.specs.Prelude.{◌≡◌, ◌≢◌, ℕ, ◌≤◌, ◌<◌, Bool, true, false, List, [], ◌∷◌};
ghost use Rattle.std.specs.Prelude.{Option, Some, Contains, IsTrue, slice_get, ◌||◌, length};
ghost use Rattle.sw_tree.specs.NodeKey.{expr_key};
ghost use Rattle.sw_tree.specs.declared.decl.Decl.{Decl};
ghost use Rattle.sw_tree.specs.declared.expr.Arg.{Arg};
ghost use Rattle.sw_tree.specs.declared.expr.Expr.{Expr};
ghost use Rattle.sw_tree.specs.declared.expr.Expr.TheVariants as exprs;
ghost use Rattle.sw_tree.specs.declared.name.Name.{Name};
ghost use Rattle.sw_tree.specs.declared.stmt.Block.{Block};
ghost use Rattle.sw_types.specs.declared.isolation.CallKind.{CallKind};
ghost use Rattle.sw_types.specs.declared.isolation.CallKind.TheVariants.{Make, Plain, Same, Strong};
ghost use Rattle.sw_types.specs.declared.isolation.CallKind.TheVariants.{Weak};
ghost use Rattle.sw_types.specs.declared.isolation.Iso.{Iso};
ghost use Rattle.sw_types.specs.declared.isolation.Iso.TheVariants.{Caller, Free, Global, Own};
ghost use Rattle.sw_types.specs.declared.shape.Shape.{Shape};
ghost use Rattle.sw_types.specs.declared.shape.ShapeKind.TheVariants as shapes;
ghost use Rattle.sw_graph.specs.Bodies.{first_is_self, is_actor_initialiser};
ghost use Rattle.sw_graph.specs.Placed.{CallPlaced};
ghost use Rattle.sw_graph.specs.declared.function.Function.{Function};
ghost use Rattle.sw_graph.specs.declared.graph.Graph.{Graph};
ghost use Rattle.sw_graph.specs.declared.instr.Instr.TheVariants.{Call};
ghost use Rattle.sw_graph.specs.declared.instr.Operand.{Operand};
ghost use Rattle.sw_decl_words.specs.declared.placed.Placed.{Placed};
ghost use Rattle.sw_decls.specs.declared.signature.Signature.{Signature};
ghost use Rattle.sw_typing_rules.specs.Worlds.{World};
ghost use Rattle.sw_typing_rules.specs.declared.row.Meaning.TheVariants as means;
ghost use Rattle.sw_isolation_rules.specs.Answers.{Answers};
ghost use Rattle.sw_isolation_rules.specs.CallKeys.{HaveNotedKinds, block_calls, expr_calls};
ghost use Rattle.sw_isolation_rules.specs.CallKeys.{is_called};
ghost use Rattle.sw_isolation_rules.specs.Kinds.{is_outside, kind_of, plain_callee};
ghost use Rattle.sw_isolation_rules.specs.Lists.{captures_in, kinds_in, refusals_in};
ghost use Rattle.sw_isolation_rules.specs.Noting.{block_notes, closure_iso, see, task_iso};
ghost use Rattle.sw_isolation_rules.specs.Noting.{use_notes};
ghost use Rattle.sw_isolation_rules.specs.Programs.{noted, refusals};
ghost use Rattle.sw_isolation_rules.specs.Races.{IsMerged, races};
ghost use Rattle.sw_isolation_rules.specs.Uses.{base_of, may_cross, maker_at, no_base, used};
ghost use Rattle.sw_isolation_rules.specs.declared.note.Capture.{Capture};
ghost use Rattle.sw_isolation_rules.specs.declared.uses.Base.{Base};
ghost use Rattle.sw_isolation_rules.specs.declared.uses.Callee.{Callee};
ghost use Rattle.sw_isolation_rules.specs.declared.uses.Context.{Context};
ghost use Rattle.sw_isolation_rules.specs.declared.uses.Storage.{Storage};
ghost use Rattle.sw_isolation_rules.specs.declared.uses.Used.{Used};
ghost use Rattle.sw_isolation_rules.specs.declared.uses.Used.TheVariants.{Called, Stored};

/// The table of kinds (SE-0306, SE-0316, SE-0338, SE-0461), a clause for each of its rows.
pub fn kinds_are_those_of_the_table()
    ensures initialiser { (iso body : Iso) (is_async on_self : Bool)
        → kind_of (record {
          iso = iso;
          is_async = is_async;
          is_initialiser = true;
          on_self = on_self;
        }) body ≡ Make }
    ensures free { (body : Iso) (on_self : Bool)
        → kind_of (plain_callee Free false on_self) body ≡ Plain }
    ensures caller { (body : Iso) (is_async on_self : Bool)
        → kind_of (plain_callee Caller is_async on_self) body ≡ Plain }
    ensures free_async { (on_self : Bool)
        → kind_of (plain_callee Free true on_self) Free ≡ Plain }
    ensures leaves { (body : Iso) (on_self : Bool) → body ≢ Free
        → kind_of (plain_callee Free true on_self) body ≡ Weak }
    ensures own { (is_async : Bool)
        → kind_of (plain_callee Own is_async true) Own ≡ Same }
    ensures other { (body : Iso) (is_async : Bool)
        → kind_of (plain_callee Own is_async false) body ≡ Strong }
    ensures outside { (body : Iso) (is_async : Bool) → body ≢ Own
        → kind_of (plain_callee Own is_async true) body ≡ Strong }
    ensures global { (actor : ℕ) (is_async on_self : Bool)
        → kind_of (plain_callee (Global actor) is_async on_self) (Global actor) ≡ Same }
    ensures elsewhere { (actor : ℕ) (body : Iso) (is_async on_self : Bool) → body ≢ Global actor
        → kind_of (plain_callee (Global actor) is_async on_self) body ≡ Strong }
{}

/// The calls of a placed graph have the kinds of this table, on `self` or on something else. One
/// within an actor is on the body's own `self`.
pub fn kinds_are_those_of_placed_graphs()
    ensures given { (graph : Graph) (body callee : Function) (at r f : ℕ) (kind : CallKind)
        (operands : List Operand) → CallPlaced graph body (Call at r kind f operands)
        → slice_get graph.functions f ≡ Some callee
        → (on_self : Bool) × (kind ≡ kind_of (record {
          iso = callee.iso;
          is_async = callee.is_async;
          is_initialiser = is_actor_initialiser callee;
          on_self = on_self;
        }) body.iso) }
    ensures within { (graph : Graph) (body callee : Function) (at r f : ℕ)
        (operands : List Operand) → CallPlaced graph body (Call at r Same f operands)
        → slice_get graph.functions f ≡ Some callee → callee.iso ≡ Own
        → IsTrue (first_is_self body operands) }
{}

/// Storage is inside where the body has its isolation, on `self` where that is an actor's own; what
/// is isolated to no actor is inside everywhere.
pub fn storage_is_inside_in_its_own_isolation()
    ensures free { (context : Context) (storage : Storage) → storage.iso ≡ Free
        → is_outside context storage ≡ false }
    ensures own { (context : Context) (storage : Storage) → storage.iso ≡ Own
        → context.iso ≡ Own → storage.on_self ≡ true → is_outside context storage ≡ false }
    ensures another { (context : Context) (storage : Storage) → storage.iso ≡ Own
        → storage.on_self ≡ false → is_outside context storage ≡ true }
    ensures away { (context : Context) (storage : Storage) → storage.iso ≡ Own
        → context.iso ≢ Own → is_outside context storage ≡ true }
    ensures global { (context : Context) (storage : Storage) (actor : ℕ)
        → storage.iso ≡ Global actor → context.iso ≡ Global actor
        → is_outside context storage ≡ false }
    ensures elsewhere { (context : Context) (storage : Storage) (actor : ℕ)
        → storage.iso ≡ Global actor → context.iso ≢ Global actor
        → is_outside context storage ≡ true }
{}

/// A closure or a task is never isolated as its caller (SE-0461). An isolated closure has the
/// isolation of the body around it, and so has a task that is isolated to `self`.
pub fn closures_run_apart()
    ensures closure { (answers : Answers) (at : ℕ) (around : Iso)
        → closure_iso answers at around ≢ Caller }
    ensures task { (world : World) (mark : Option Name) (detached : Bool) (around : Iso)
        → task_iso world mark detached around ≢ Caller }
    ensures inside { (answers : Answers) (at : ℕ) (around : Iso)
        → closure_iso answers at around ≢ Free → closure_iso answers at around ≡ around }
    ensures held { (world : World) (mark : Option Name) (detached : Bool) (around : Iso)
        → task_iso world mark detached around ≡ Own → around ≡ Own }
{}

/// A call, a read or a wait for a task has one breach of isolation at most, and none where it is
/// awaited in an asynchronous body. What is written is said of by `write_notes`.
pub fn uses_are_refused_once()
    ensures once { (context : Context) (at : ℕ) (one : Used)
        → length (refusals_in (use_notes context at one)) ≤ 1 }
    ensures awaited { (context : Context) (at : ℕ) (one : Used) → context.is_async ≡ true
        → context.awaited ≡ true → refusals_in (use_notes context at one) ≡ [] }
{}

/// A name or a member that means a function calls it: one without `self.` on `self`, and another on
/// what stands before its `.`. A class or an actor that is made calls its initialiser.
pub fn calls_are_of_what_is_meant()
    ensures func { (world : World) (answers : Answers) (owner : Option ℕ) (base : Base)
        (at number : ℕ) (func : Signature) → answers.meaning_at at ≡ Some (means.FuncOf number)
        → slice_get world.funcs number ≡ Some func
        → used world answers owner base at
        ≡ Called (plain_callee func.iso func.is_async base.is_self)
        (func.sends || may_cross world func.result) }
    ensures own { (world : World) (answers : Answers) (owner : Option ℕ) (base : Base)
        (at number : ℕ) (func : Signature) → answers.meaning_at at ≡ Some (means.OwnFunc number)
        → slice_get world.funcs number ≡ Some func
        → used world answers owner base at
        ≡ Called (plain_callee func.iso func.is_async true)
        (func.sends || may_cross world func.result) }
    ensures class { (world : World) (answers : Answers) (owner : Option ℕ) (base : Base)
        (at number : ℕ) (shape : Shape) (func : Signature)
        → answers.meaning_at at ≡ Some (means.MakeOf number)
        → slice_get world.shapes number ≡ Some shape → shape.kind ≡ shapes.Class
        → maker_at world number ≡ Some func
        → used world answers owner base at
        ≡ Called (plain_callee func.iso func.is_async false)
        (func.sends || may_cross world func.result) }
    ensures actor { (world : World) (answers : Answers) (owner : Option ℕ) (base : Base)
        (at number : ℕ) (shape : Shape) (func : Signature)
        → answers.meaning_at at ≡ Some (means.MakeOf number)
        → slice_get world.shapes number ≡ Some shape → shape.kind ≡ shapes.Actor
        → maker_at world number ≡ Some func
        → used world answers owner base at
        ≡ Called (record {
          iso = func.iso;
          is_async = func.is_async;
          is_initialiser = true;
          on_self = false;
        }) (func.sends || may_cross world func.result) }
{}

/// What is noted of an expression has the key of the expression's own node.
pub fn expressions_are_noted_by_key()
    ensures { (world : World) (answers : Answers) (expr : Expr)
        → (see world answers expr).key ≡ expr_key expr }
{}

/// A call of a function, a method or an initialiser has the kind that the table gives.
pub fn calls_have_kinds()
    ensures call { (world : World) (answers : Answers) (context : Context) (listed : List ℕ)
        (name : Name) (args : List Arg) (callee : Callee) (crosses : Bool)
        → used world answers context.owner no_base name.at ≡ Called callee crosses
        → Contains (kinds_in ((see world answers (exprs.Call name args)).notes context listed))
        (record { at = name.at; kind = kind_of callee context.iso }) }
    ensures method { (world : World) (answers : Answers) (context : Context) (listed : List ℕ)
        (base : Expr) (name : Name) (args : List Arg) (callee : Callee) (crosses : Bool)
        → used world answers context.owner
        (base_of answers (see world answers base).key (see world answers base).is_self) name.at
        ≡ Called callee crosses
        → Contains
        (kinds_in ((see world answers (exprs.Method base name args)).notes context listed))
        (record { at = name.at; kind = kind_of callee context.iso }) }
{}

/// A `var` of another actor is read by a Strong call of its getter.
pub fn crossing_reads_have_kinds()
    ensures word { (world : World) (answers : Answers) (context : Context) (listed : List ℕ)
        (name : Name) (storage : Storage)
        → used world answers context.owner no_base name.at ≡ Stored storage
        → is_called context storage ≡ true
        → Contains (kinds_in ((see world answers (exprs.Use name)).notes context listed))
        (record { at = name.at; kind = Strong }) }
    ensures member { (world : World) (answers : Answers) (context : Context) (listed : List ℕ)
        (base : Expr) (name : Name) (storage : Storage)
        → used world answers context.owner
        (base_of answers (see world answers base).key (see world answers base).is_self) name.at
        ≡ Stored storage
        → is_called context storage ≡ true
        → Contains (kinds_in ((see world answers (exprs.Member base name)).notes context listed))
        (record { at = name.at; kind = Strong }) }
{}

/// The breaches of isolation have the codes E501 to E505, and what may not be shared E601 to E606.
pub fn breaches_have_codes_of_their_own()
    ensures refusals { (world : World) (answers : Answers) (decls : List Decl) (one : Placed)
        → Contains (refusals world answers decls) one → (501 ≤ one.code) × (one.code ≤ 505) }
    ensures races { (world : World) (answers : Answers) (decls : List Decl) (one : Placed)
        → Contains (races world answers decls) one → (601 ≤ one.code) × (one.code ≤ 606) }
{}

/// What a closure captures is declared before it.
pub fn captures_are_outer_variables()
    ensures { (world : World) (answers : Answers) (decls : List Decl) (one : Capture)
        → Contains (captures_in (noted world answers decls)) one → one.variable < one.closure }
{}

/// Of breaches in order, each once, there is one list.
pub fn merged_breaches_are_one_list()
    ensures { (all one other : List Placed) → IsMerged all one → IsMerged all other
        → one ≡ other }
{}

/// Each call of a function, a method or an initialiser that stands in an expression or a block,
/// however deep, has a kind, and so has each read of a `var` of another actor.
pub fn calls_inside_have_kinds()
    ensures exprs { (world : World) (answers : Answers) (context : Context) (listed : List ℕ)
        (expr : Expr) → HaveNotedKinds ((see world answers expr).notes context listed)
        (expr_calls world answers expr context) }
    ensures blocks { (world : World) (answers : Answers) (context : Context) (listed : List ℕ)
        (block : Block) → HaveNotedKinds (block_notes world answers block context listed)
        (block_calls world answers block context) }
{}
