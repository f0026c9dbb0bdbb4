//! The laws, on region states first, then on what instructions do to them, then on the states at a
//! function's points.
ghost use Rattle.std.specs.Prelude.{◌≡◌, ◌≢◌, ◌+◌, ◌↔◌, ℕ, Bool, List, ◌∷◌, Contains, Option, None, Some};
ghost use Rattle.std.specs.Prelude.{false, slice_get};
ghost use Rattle.sw_graph.specs.declared.function.Function.{Function};
ghost use Rattle.sw_graph.specs.declared.graph.Graph.{Graph};
ghost use Rattle.sw_graph.specs.declared.instr.Instr.{Instr};
ghost use Rattle.sw_graph.specs.declared.instr.Last.{Last};
ghost use Rattle.sw_graph.specs.declared.instr.Operand.{Operand};
ghost use Rattle.sw_graph.specs.Mentions.{blocks_of};
ghost use Rattle.sw_graph.specs.Points.{Middle, End, point_in, block_start};
ghost use Rattle.sw_graph.specs.Sure.{SureWay};
ghost use Rattle.sw_owner_facts.specs.View.{Element, Here, Register};
ghost use Rattle.sw_partition.specs.Regions.{Regions, Together, IsWithin, IsSameState};
ghost use Rattle.sw_region_flow.specs.Least.{IsLeast, point_ops_at};
ghost use Rattle.sw_region_flow.specs.Passing.{IsNotGivenAway, IsPassed};
ghost use Rattle.sw_region_flow.specs.Walks.{Walks};
ghost use Rattle.sw_region_ops.specs.Elements.{element_at, elements_of};
ghost use Rattle.sw_region_ops.specs.Setting.{setting_of};
ghost use Rattle.sw_solve.specs.Annotation.{value_at};
ghost use Rattle.sw_region_facts.specs.Annotated.{Annotates, StandsAt};
ghost use Rattle.sw_region_facts.specs.Calling.{passed_from, IsArgument};
ghost use Rattle.sw_region_facts.specs.FrameRegions.{element_in, TogetherIn, LiveIn, HaveOwnNumbers};
ghost use Rattle.sw_region_facts.specs.FrameRegions.{IsStateOf, IsWeaker};
ghost use Rattle.sw_region_facts.specs.Moves.{if_tracked, tracked, Sets, Gathers, Makes};
ghost use Rattle.sw_region_facts.specs.Rows.{InstrMoves, LastAsks};

/// What a region state says of the elements of a frame, by their numbers. A register that isn't
/// tracked is live, and together with itself alone.
pub fn states_tell_of_elements()
    ensures live { (elements : List (Option ℕ)) → HaveOwnNumbers elements → (a : Regions)
        → IsStateOf elements a → (r x : ℕ) → element_at elements r ≡ Some x
        → LiveIn elements a (Register r) ↔ IsNotGivenAway a x }
    ensures together { (elements : List (Option ℕ)) → HaveOwnNumbers elements → (a : Regions)
        → IsStateOf elements a → (e f : Element) (x y : ℕ) → element_in elements e ≡ Some x
        → element_in elements f ≡ Some y → TogetherIn elements a e f ↔ Together a x y }
    ensures untracked { (elements : List (Option ℕ)) (a : Regions) (r : ℕ)
        → element_at elements r ≡ None → LiveIn elements a (Register r) }
    ensures alone { (elements : List (Option ℕ)) (a : Regions) (r : ℕ) (e : Element)
        → element_at elements r ≡ None → TogetherIn elements a (Register r) e → e ≡ Register r }
{}

/// A greater state is weaker, and so is one that means the same.
pub fn greater_states_are_weaker()
    ensures within { (elements : List (Option ℕ)) → HaveOwnNumbers elements → (a b : Regions)
        → IsStateOf elements a → IsWithin a b → IsWeaker elements a b }
    ensures same { (elements : List (Option ℕ)) → HaveOwnNumbers elements → (a b : Regions)
        → IsStateOf elements a → IsSameState a b → IsWeaker elements a b }
    ensures on { (elements : List (Option ℕ)) (a b c : Regions)
        → IsWeaker elements a b → IsWeaker elements b c → IsWeaker elements a c }
{}

/// What a register gets. If it is among elements that come together, it may get what all of them
/// hold. What is made of elements comes from them. What a register gets before more unites, it gets
/// after that too.
pub fn registers_get_what_sources_hold()
    ensures gathered { (elements : List (Option ℕ)) (r : ℕ) (xs : List Element) (a c : Regions)
        → Gathers elements xs a c → Contains xs (Register r) → Sets elements r xs a c }
    ensures made { (elements : List (Option ℕ)) (r : ℕ) (xs : List Element) (a c : Regions)
        → Makes elements r xs a c → ((x : Element) → Contains xs x → x ≢ Register r)
        → Sets elements r (if_tracked (element_at elements r) xs) a c }
    ensures weaker { (elements : List (Option ℕ)) (r : ℕ) (sources : List Element)
        (a b c : Regions) → Sets elements r sources a b → IsWeaker elements b c
        → Sets elements r sources a c }
{}

/// The tracked operands of an instruction are registers of its operands. Of a call's arguments
/// those are given away whose parameter is `sending`, and the others are lent; the arguments for two
/// parameters have two places.
pub fn operands_are_registers()
    ensures tracked { (elements : List (Option ℕ)) (operands : List Operand) (x : Element)
        → Contains (tracked elements operands) x
        → (operand : Operand) × Contains operands operand × (x ≡ Register operand.reg) }
    ensures argument { (elements : List (Option ℕ)) (sending : List Bool) (wanted : Bool)
        (operands : List Operand) (x : Element)
        → Contains (passed_from elements sending wanted 0 operands) x
        → (k : ℕ) × IsArgument elements sending wanted operands k x }
    ensures passed { (elements : List (Option ℕ)) (sending : List Bool) (wanted : Bool)
        (operands : List Operand) (k : ℕ) (x : Element)
        → IsArgument elements sending wanted operands k x
        → Contains (passed_from elements sending wanted 0 operands) x }
    ensures places { (elements : List (Option ℕ)) (sending : List Bool) (wanted : Bool)
        (operands : List Operand) (k l : ℕ) (x y : Element)
        → IsArgument elements sending wanted operands k x
        → IsArgument elements sending wanted operands l y → k ≢ l → (n m : ℕ)
        × (slice_get (passed_from elements sending wanted 0 operands) n ≡ Some x)
        × (slice_get (passed_from elements sending wanted 0 operands) m ≡ Some y) × (n ≢ m) }
{}

/// The tracked registers of a graph's function have numbers of their own.
pub fn registers_have_own_numbers()
    ensures { (graph : Graph) (number : ℕ) (body : Function)
        → slice_get graph.functions number ≡ Some body
        → HaveOwnNumbers (elements_of graph.shapes body.regs) }
{}

/// Each function of a graph without region breaches has a least annotation in which each test
/// passes, and each of its least annotations is such.
pub fn passed_graphs_are_annotated()
    ensures some { (graph : Graph) → IsPassed graph → (number : ℕ) (body : Function)
        → slice_get graph.functions number ≡ Some body
        → (states : List (Option Regions)) × Annotates graph body states }
    ensures each { (graph : Graph) → IsPassed graph → (number : ℕ) (body : Function)
        → slice_get graph.functions number ≡ Some body → (states : List (Option Regions))
        → IsLeast (setting_of graph body) states → Annotates graph body states }
{}

/// Each point that control can come to has a state, over the elements of its function. At the
/// entry, what the function is lent is with `Here`.
pub fn points_have_states()
    ensures reached { (graph : Graph) (body : Function) (states : List (Option Regions))
        → Annotates graph body states → (p : ℕ) (passed : List ℕ) → SureWay body p passed
        → (a : Regions) × (value_at states p ≡ Some a) }
    ensures sized { (graph : Graph) (body : Function) (states : List (Option Regions))
        → Annotates graph body states → (p : ℕ) (a : Regions) → value_at states p ≡ Some a
        → IsStateOf (elements_of graph.shapes body.regs) a }
    ensures lent { (graph : Graph) (body : Function) (states : List (Option Regions))
        → Annotates graph body states → (e : Regions) → value_at states 0 ≡ Some e → (k x : ℕ)
        → slice_get body.sending k ≡ Some false
        → element_at (elements_of graph.shapes body.regs) k ≡ Some x
        → TogetherIn (elements_of graph.shapes body.regs) e (Register k) Here }
{}

/// From the state before an instruction to the one after it there is the row of the instruction.
/// The state after it says exactly what its operations make of the one before.
pub fn instructions_keep_their_rows()
    ensures row { (graph : Graph) (body : Function) (states : List (Option Regions))
        → Annotates graph body states → (p : ℕ) (instr : Instr)
        → point_in body p ≡ Some (Middle instr) → (a : Regions) → value_at states p ≡ Some a
        → StandsAt states (p + 1) (InstrMoves (setting_of graph body) instr a) }
    ensures made { (graph : Graph) (body : Function) (states : List (Option Regions))
        → Annotates graph body states → (p : ℕ) (instr : Instr)
        → point_in body p ≡ Some (Middle instr) → (a : Regions) → value_at states p ≡ Some a
        → StandsAt states (p + 1) (λ c. (made : Regions)
        → Walks (point_ops_at (setting_of graph body) p) a made → IsSameState made c) }
{}

/// The state before the last instruction of a block is as that instruction asks, and the states at
/// the blocks that it may go to are weaker.
pub fn blocks_end_as_asked()
    ensures asks { (graph : Graph) (body : Function) (states : List (Option Regions))
        → Annotates graph body states → (p : ℕ) (last : Last)
        → point_in body p ≡ Some (End last) → (a : Regions) → value_at states p ≡ Some a
        → LastAsks (setting_of graph body) last a }
    ensures goes_on { (graph : Graph) (body : Function) (states : List (Option Regions))
        → Annotates graph body states → (p : ℕ) (last : Last)
        → point_in body p ≡ Some (End last) → (a : Regions) → value_at states p ≡ Some a
        → (k block q : ℕ) → slice_get (blocks_of last) k ≡ Some block
        → block_start body block ≡ Some q
        → StandsAt states q (IsWeaker (elements_of graph.shapes body.regs) a) }
{}
