//! The theorem in one place, beside the contract of `run_words`: the laws on texts, their graphs,
//! machines, replays and replies, each with its whole statement. Each cites the law of the same name
//! in the crate in which it is proved. Nothing calls them: whoever builds the program has proved
//! them all.

ghost use Rattle.std.specs.List.{AllByRecursion};
ghost use Rattle.std.specs.List.Sorted.{IsStrictlySortedBy};
ghost use Rattle.std.specs.Prelude.{◌≡◌, ◌≢◌, ◌≤◌, ◌⊎◌, ℕ, List, length, [], IsTrue, None};
ghost use Rattle.std.specs.Prelude.{slice_get, Some, IsSome, false, ◌↔◌, ◌++◌, Result, ◌<◌, ◌^◌};
ghost use Rattle.std.specs.Prelude.{All, Ok, Option};
ghost use Rattle.sw_breach.specs.Codes.{IsCode};
ghost use Rattle.sw_breach.specs.Order.{breach_cmp};
ghost use Rattle.sw_breach.specs.declared.Breach.{Breach};
ghost use Rattle.sw_breach.specs.declared.codes.TheConstants.{GIVEN_AWAY};
ghost use Rattle.sw_types.specs.declared.shape.Shape.{Shape};
ghost use Rattle.sw_types.specs.declared.shape.ShapeKind.TheVariants.{Actor, Class};
ghost use Rattle.sw_graph.specs.Bodies.{is_self};
ghost use Rattle.sw_graph.specs.Clean.{IsClean, conforms};
ghost use Rattle.sw_graph.specs.Placed.{IsPlaced, is_inside_shape};
ghost use Rattle.sw_graph.specs.Supplied.{IsSupplied};
ghost use Rattle.sw_graph.specs.declared.function.Function.{Function};
ghost use Rattle.sw_graph.specs.declared.function.GlobalKind.{GlobalKind};
ghost use Rattle.sw_graph.specs.declared.graph.Graph.{Graph};
ghost use Rattle.sw_graph.specs.declared.instr.Operand.{Operand};
ghost use Rattle.sw_decls.specs.declared.signature.AsyncDefault.{AsyncDefault};
ghost use Rattle.sw_isolation_rules.specs.Races.{races};
ghost use Rattle.sw_value.specs.Access.{next_access};
ghost use Rattle.sw_value.specs.Act.{act_of};
ghost use Rattle.sw_value.specs.Effect.{effect_of, is_stuck};
ghost use Rattle.sw_value.specs.Job.{is_running, top_frame};
ghost use Rattle.sw_value.specs.Racing.{Racing};
ghost use Rattle.sw_value.specs.Reach.{reach, step_of};
ghost use Rattle.sw_value.specs.declared.cell.HeapCell.TheVariants as cell;
ghost use Rattle.sw_value.specs.declared.frame.Frame.{Frame};
ghost use Rattle.sw_value.specs.declared.job.Job.{Job};
ghost use Rattle.sw_value.specs.declared.race.Access.{Access};
ghost use Rattle.sw_value.specs.declared.race.Place.{Place};
ghost use Rattle.sw_value.specs.declared.race.Place.TheVariants.{Prop, BoxOf, Global};
ghost use Rattle.sw_value.specs.declared.state.State.{State};
ghost use Rattle.sw_value.specs.declared.value.Value.{Value};
ghost use Rattle.sw_machine_access_facts.specs.Footprint.{Writes, Reads};
ghost use Rattle.sw_machine_access_facts.specs.Location.{IsLocation, content_of, with_content};
ghost use Rattle.sw_machine_access_facts.specs.Location.{IsVar};
ghost use Rattle.sw_before.specs.Events.{events_of};
ghost use Rattle.sw_before.specs.Unordered.{AreOrdered};
ghost use Rattle.sw_race.specs.Step.{BringsInItsOwn, HasRival};
ghost use Rattle.sw_replay.specs.Items.{IsItems, IsFirstFault, HasItems, position_of};
ghost use Rattle.sw_replay.specs.Output.{output_of};
ghost use Rattle.sw_replay.specs.Replay.{IsRacingAt, IsReplay};
ghost use Rattle.sw_replay.specs.declared.output.Replay.{Replay};
ghost use Rattle.sw_replay.specs.declared.text.SchedFault.{SchedFault};
ghost use Rattle.sw_cert.specs.Verified.{IsAccepted, Verified};
ghost use Rattle.sw_cert.specs.declared.verdict.CertFault.{CertFault};
ghost use Rattle.sw_cert_making.specs.Printed.{IsLeastCertificate};
ghost use Rattle.sw_hb.specs.Replay.{IsOrderReplay};
ghost use Rattle.sw_hb.specs.declared.ordering.OrderReplay.{OrderReplay};
ghost use Rattle.sw_region_ops.specs.declared.op.TheConstants.{ISOLATED_TO_ACTOR, ISOLATED_TO_TASK};
ghost use Rattle.sw_region_ops.specs.declared.op.TheConstants.{NOT_DISCONNECTED};
ghost use Rattle.sw_region_flow.specs.Breaches.{AreBreaches};
ghost use Rattle.sw_region_flow.specs.Passing.{IsPassed};
ghost use Rattle.sw_machine_kind_facts.specs.Kinded.{Kinded};
ghost use Rattle.sw_machine_kind_facts.specs.Operands.{HasNext};
ghost use Rattle.sw_machine_let_facts.specs.Lets.{IsPastFirsts, IsLet};
ghost use Rattle.sw_verdict.specs.Phases.{Finds, Phase, Races, Sharing, all_phases, IsGraphOf};
ghost use Rattle.sw_verdict.specs.Phases.{phases_to_sharing, phases_to_size, answers_of_program};
ghost use Rattle.sw_verdict.specs.ActorNames.{HasActorNames};
ghost use Rattle.sw_verdict.specs.Verdict.{Accepts, Breaches, Refuses};
ghost use Rattle.sw_check_text.specs.Verdicts.{Accepting, IsVerdictOn, NamesRaces, Refusing};
ghost use Rattle.sw_check_parts.specs.Course.{AreOf, Read, Underway};
ghost use Rattle.sw_check_parts.specs.Lawful.{IsPrefixOf};
ghost use Rattle.sw_check_parts.specs.declared.outcome.Outcome.{Outcome};
ghost use Rattle.sw_check.specs.Claims.{Ending, Ends};
ghost use Rattle.sw_check.specs.Reply.{Reply, course_of};
ghost use Rattle.sw_check_words.specs.Words.{Command};

use sw_cert::CERTIFICATE_LIMIT;
use sw_check::{PROGRAM_LIMIT, Verdict};
use sw_clocks::MOST_JOBS;
use sw_graph::{MAX_POINTS, MAX_REGISTERS};
use sw_replay::{MAX_ITEMS, SCHEDULE_LIMIT};
use sw_token::MOST_TOKENS;
use sw_value::{MAX_FRAMES, MAX_JOBS, NO_REGISTER};

// What is accepted, and which graph a text has.

/// Under each default for asynchronous functions every text is accepted or refused, and never both.
/// A text has one list of breaches, by position and then by code, each with a code that has a
/// message. A phase finds one breach at most, but for those of sharing and of races, which find all.
pub fn texts_have_one_verdict()
    ensures decided { (rule : AsyncDefault) (text : List ℕ)
        → Accepts rule text ⊎ Refuses rule all_phases text }
    ensures never_both { (rule : AsyncDefault) (text : List ℕ) → Accepts rule text
        → ¬ (Refuses rule all_phases text) }
    ensures one_list { (rule : AsyncDefault) (phases : List Phase) (text : List ℕ)
        (a b : List Breach) → Breaches rule phases text a → Breaches rule phases text b → a ≡ b }
    ensures one_breach { (rule : AsyncDefault) (phase : Phase) (text : List ℕ)
        (list : List Breach) → phase ≢ Sharing → phase ≢ Races → Finds rule phase text list
        → length list ≤ 1 }
    ensures in_order { (rule : AsyncDefault) (phases : List Phase) (text : List ℕ)
        (list : List Breach) → Breaches rule phases text list
        → IsStrictlySortedBy breach_cmp list }
    ensures codes { (rule : AsyncDefault) (phases : List Phase) (text : List ℕ)
        (list : List Breach) → Breaches rule phases text list
        → AllByRecursion (λ breach. IsCode breach.code) list }
{
    sw_verdict::texts_have_one_verdict()
}

/// Under each default the phases up to the size of functions find no breach in a text, or one of
/// them does, and never both. They find none in an accepted text. A text in which they find none
/// has one graph.
pub fn texts_have_one_graph()
    ensures decided { (rule : AsyncDefault) (text : List ℕ) → Breaches rule phases_to_size text []
        ⊎ Refuses rule phases_to_size text }
    ensures never_both { (rule : AsyncDefault) (text : List ℕ)
        → Breaches rule phases_to_size text [] → ¬ (Refuses rule phases_to_size text) }
    ensures accepted { (rule : AsyncDefault) (text : List ℕ) → Accepts rule text
        → Breaches rule phases_to_size text [] }
    ensures some_graph { (rule : AsyncDefault) (text : List ℕ)
        → Breaches rule phases_to_size text [] → (graph : Graph) × IsGraphOf rule text graph }
    ensures one_graph { (rule : AsyncDefault) (text : List ℕ) (a b : Graph)
        → IsGraphOf rule text a → IsGraphOf rule text b → a ≡ b }
{
    sw_verdict::texts_have_one_graph()
}

/// A text that shares no value that may not be shared, and whose graph has no region breach, is
/// accepted.
pub fn texts_without_breaches_are_accepted()
    ensures { (rule : AsyncDefault) (text : List ℕ) (graph : Graph)
        → Breaches rule phases_to_sharing text [] → IsGraphOf rule text graph
        → AreBreaches graph [] → Accepts rule text }
{
    sw_verdict::texts_without_breaches_are_accepted()
}

/// The verdict that `check_text` gives accepts exactly the texts in which no phase finds a breach. It
/// names races exactly where the last phase is the first that finds any, and refuses exactly where an
/// earlier phase does.
pub fn verdicts_are_exact()
    ensures accepted { (rule : AsyncDefault) (text : List ℕ) (verdict : Verdict)
        → IsVerdictOn rule text verdict → Accepts rule text → Accepting verdict }
    ensures races { (rule : AsyncDefault) (text : List ℕ) (verdict : Verdict)
        → IsVerdictOn rule text verdict → Breaches rule phases_to_size text []
        → Refuses rule all_phases text → NamesRaces verdict }
    ensures refused { (rule : AsyncDefault) (text : List ℕ) (verdict : Verdict)
        → IsVerdictOn rule text verdict → Refuses rule phases_to_size text → Refusing verdict }
{
    sw_check_text::verdicts_are_exact()
}

/// A text in which the phases up to the size of functions find no breach has names for its global
/// actors. No text has two lists of them.
pub fn global_actors_have_names()
    ensures some_names { (rule : AsyncDefault) (text : List ℕ) → Breaches rule phases_to_size text []
        → (names : List (List ℕ)) × HasActorNames text names }
    ensures one_list { (text : List ℕ) (a b : List (List ℕ)) → HasActorNames text a
        → HasActorNames text b → a ≡ b }
{
    sw_verdict::global_actors_have_names()
}

/// In the graph of a text that is accepted under a default each test of the regions passes, at each
/// point of each function: what is used was given away on no way there, and what is given away is
/// nothing that others may hold (SE-0414).
pub fn accepted_graphs_pass()
    ensures { (rule : AsyncDefault) (text : List ℕ) (graph : Graph) → Accepts rule text
        → IsGraphOf rule text graph → IsPassed graph }
{
    sw_verdict::accepted_graphs_pass()
}

// The graph of a text.

/// The graph of a text in which the phases up to the size of functions find no breach is placed,
/// under each default and whatever races it has: its calls, accesses, initialisers, closures and
/// tasks stand where their isolation lets them, and only classes have a global actor (SE-0306,
/// SE-0316, SE-0461).
pub fn texts_have_placed_graphs()
    ensures { (rule : AsyncDefault) (text : List ℕ) (graph : Graph)
        → Breaches rule phases_to_size text [] → IsGraphOf rule text graph → IsPlaced graph }
{
    sw_text_facts::texts_have_placed_graphs()
}

/// The graph of a text that is accepted under a default is clean: it is placed, what crosses
/// between isolations may cross, and what declares that it is Sendable may say so (SE-0302,
/// SE-0412, SE-0430). So is that of each text besides that passes the phases up to the size of
/// functions and whose program shares no value that may not be, whatever breaches of regions it
/// has.
pub fn accepted_texts_have_clean_graphs()
    ensures accepted { (rule : AsyncDefault) (text : List ℕ) (graph : Graph) → Accepts rule text
        → IsGraphOf rule text graph → IsClean graph }
    ensures unshared { (rule : AsyncDefault) (text : List ℕ) (graph : Graph)
        → Breaches rule phases_to_size text [] → (of : IsGraphOf rule text graph)
        → races of.world (answers_of_program of.world of.decls) of.decls ≡ [] → IsClean graph }
{
    sw_text_facts::accepted_texts_have_clean_graphs()
}

/// In a placed graph only classes have a global actor. So the parts of an actor are inside a body
/// only on the body's own `self`; and in a clean graph what declares that it is Sendable may say
/// so, unless it is a class with a global actor (SE-0302, SE-0306, SE-0316).
pub fn only_classes_have_global_actors()
    ensures selves { (graph : Graph) (k : ℕ) (shape : Shape) (body : Function) (cell : Operand)
        → IsPlaced graph → slice_get graph.shapes k ≡ Some shape → shape.kind ≡ Actor
        → is_inside_shape body cell shape ≡ is_self body cell }
    ensures conformances { (graph : Graph) (k : ℕ) (shape : Shape) → IsClean graph
        → slice_get graph.shapes k ≡ Some shape → IsTrue shape.conforms
        → (shape.kind ≡ Class → shape.actor ≡ None) → IsTrue (conforms graph shape) }
{
    sw_graph::only_classes_have_global_actors()
}

// The machine of such a graph.

/// The graph of a text in which the phases up to the size of functions find no breach is supplied,
/// under each default and whatever races it has. So no list of items leads its machine to a running
/// job that is stuck: the job's next instruction finds its operands, of the kinds that it asks for,
/// and an item that names the job executes it, unless the machine is halted.
pub fn texts_never_get_stuck()
    ensures supplied { (rule : AsyncDefault) (text : List ℕ) (graph : Graph)
        → Breaches rule phases_to_size text [] → IsGraphOf rule text graph → IsSupplied graph }
    ensures never_stuck { (rule : AsyncDefault) (text : List ℕ) (graph : Graph)
        → Breaches rule phases_to_size text [] → IsGraphOf rule text graph
        → (items : List ℕ) (j : ℕ) (job : Job) (frame : Frame)
        → slice_get (reach graph items).jobs j ≡ Some job → IsTrue (is_running job)
        → top_frame job ≡ Some frame
        → is_stuck (effect_of graph (reach graph items) (length job.frames) frame) ≡ false }
    ensures executes { (rule : AsyncDefault) (text : List ℕ) (graph : Graph)
        → Breaches rule phases_to_size text [] → IsGraphOf rule text graph
        → (items : List ℕ) (j : ℕ) (job : Job)
        → (reach graph items).halted ≡ None → slice_get (reach graph items).jobs j ≡ Some job
        → IsTrue (is_running job) → IsSome (act_of graph (reach graph items) j) }
    ensures operands { (rule : AsyncDefault) (text : List ℕ) (graph : Graph)
        → Breaches rule phases_to_size text [] → IsGraphOf rule text graph
        → (items : List ℕ) (j : ℕ) (job : Job)
        → slice_get (reach graph items).jobs j ≡ Some job → IsTrue (is_running job)
        → (kinded : Kinded graph (reach graph items))
        × HasNext graph kinded.world.cells (reach graph items) job }
{
    sw_text_facts::texts_never_get_stuck()
}

/// Where the machine of such a graph isn't racing after some items, the step of a job brings in
/// races of that job alone. So the state after it is racing exactly where that job has a rival.
pub fn texts_race_by_their_last_step()
    ensures one_job { (rule : AsyncDefault) (text : List ℕ) (graph : Graph)
        → Breaches rule phases_to_size text [] → IsGraphOf rule text graph
        → (items : List ℕ) (j : ℕ) → BringsInItsOwn graph (reach graph items) j }
    ensures racing { (rule : AsyncDefault) (text : List ℕ) (graph : Graph)
        → Breaches rule phases_to_size text [] → IsGraphOf rule text graph
        → (items : List ℕ) (j : ℕ) → ¬ Racing graph (reach graph items)
        → (Racing graph (step_of graph (reach graph items) j)
        ↔ HasRival graph (step_of graph (reach graph items) j) j) }
{
    sw_text_facts::texts_race_by_their_last_step()
}

/// **Soundness.** No state that the machine of an accepted text reaches has two running jobs about to
/// access one location of which one writes: a `var` part of an object or an actor, a global `var`, or
/// a captured variable. It holds under each default and for every list of items, of any length; so
/// over all interleavings of the jobs.
pub fn accepted_texts_never_race()
    ensures { (rule : AsyncDefault) (text : List ℕ) (graph : Graph) → Accepts rule text
        → IsGraphOf rule text graph → (items : List ℕ) → ¬ Racing graph (reach graph items) }
{
    sw_text_facts::accepted_texts_never_race()
}

/// Nor would a detector of data races that orders what one run did find a race: of two accesses of one
/// location by two jobs, of which one writes, the earlier one happens before the later. It is before it
/// in one job, or it is led to by the making of a job, by its end that another job waits for, or by an
/// actor that one job leaves and another enters (SE-0306).
pub fn accepted_texts_order_their_accesses()
    ensures { (rule : AsyncDefault) (text : List ℕ) (graph : Graph) → Accepts rule text
        → IsGraphOf rule text graph → (items : List ℕ) → AreOrdered (events_of graph items) }
{
    sw_text_facts::accepted_texts_order_their_accesses()
}

/// What soundness rests on, without any text: the machine of a graph that is clean and supplied and
/// in which each test of the regions passes never races.
pub fn passed_graphs_never_race()
    ensures { (graph : Graph) → IsClean graph → IsSupplied graph → IsPassed graph
        → (items : List ℕ) → ¬ Racing graph (reach graph items) }
{
    sw_sound_facts::passed_graphs_never_race()
}

// What the definition of a race stands for: a step touches no location except that of its access.

/// The write footprint of a step: it changes no location but the one that the next access of its
/// job writes, if there is such an access. No location goes away, whatever the step does.
pub fn steps_write_what_they_access()
    ensures writes { (graph : Graph) (state : State) (j : ℕ) (place : Place)
        → IsLocation graph state place → ¬ Writes graph state j place
        → content_of (step_of graph state j) place ≡ content_of state place }
    ensures stays { (graph : Graph) (state : State) (j : ℕ) (place : Place)
        → IsLocation graph state place → IsLocation graph (step_of graph state j) place }
{
    sw_machine_access_facts::steps_write_what_they_access()
}

/// The read footprint of a step: what an item makes its job do doesn't depend on what stands at a
/// location, unless the next access of the job reads it. So a store doesn't depend on what it
/// writes over. A global that has no value yet is left out: a job that is about to load it is stuck
/// and accesses nothing, and with a value there it would go on.
pub fn steps_read_what_they_access()
    ensures reads { (graph : Graph) (state : State) (j : ℕ) (place : Place) (value : Value)
        → IsLocation graph state place → IsSome (content_of state place)
        → ¬ Reads graph state j place
        → act_of graph (with_content place value state) j ≡ act_of graph state j }
{
    sw_machine_access_facts::steps_read_what_they_access()
}

/// The next access of a job is the job's own, and of a location. What is read has a value. So has
/// each part and each box; a global that is written may have none, where its first value is stored.
pub fn accesses_are_of_locations()
    ensures job { (graph : Graph) (state : State) (j : ℕ) (access : Access)
        → next_access graph state j ≡ Some access → access.job ≡ j }
    ensures location { (graph : Graph) (state : State) (j : ℕ) (access : Access)
        → next_access graph state j ≡ Some access → IsLocation graph state access.place }
    ensures read { (graph : Graph) (state : State) (j : ℕ) (access : Access)
        → next_access graph state j ≡ Some access → access.writes ≡ false
        → IsSome (content_of state access.place) }
    ensures parts { (graph : Graph) (state : State) (c i : ℕ)
        → IsLocation graph state (Prop c i) → IsSome (content_of state (Prop c i)) }
    ensures boxes { (graph : Graph) (state : State) (c : ℕ)
        → IsLocation graph state (BoxOf c) → IsSome (content_of state (BoxOf c)) }
{
    sw_machine_access_facts::accesses_are_of_locations()
}

/// Every box is a location, and so is every global `var` and every `var` part of an object or an
/// actor. So the laws on locations leave out none of them.
pub fn variables_are_locations()
    ensures boxes { (graph : Graph) (state : State) (c : ℕ) (value : Value)
        → slice_get state.cells c ≡ Some (cell.BoxOf value) → IsLocation graph state (BoxOf c) }
    ensures globals { (graph : Graph) (state : State) (g : ℕ) (kind : GlobalKind)
        → slice_get graph.globals g ≡ Some kind → IsTrue kind.mutable
        → IsLocation graph state (Global g) }
    ensures objects { (graph : Graph) (state : State) (c i k : ℕ) (parts : List Value)
        → slice_get state.cells c ≡ Some (cell.Object k parts) → IsSome (slice_get parts i)
        → IsVar graph k i → IsLocation graph state (Prop c i) }
    ensures actors { (graph : Graph) (state : State) (c i k : ℕ) (parts : List Value)
        → slice_get state.cells c ≡ Some (cell.Actor k parts) → IsSome (slice_get parts i)
        → IsVar graph k i → IsLocation graph state (Prop c i) }
{
    sw_machine_access_facts::variables_are_locations()
}

// No step changes a `let`.

/// A `let` of an object or an actor, a part that has a value and is no location, keeps the value by
/// each step and by any further items. It never becomes a location.
pub fn lets_stay()
    ensures step { (graph : Graph) → IsPlaced graph → IsSupplied graph → (items : List ℕ)
        (j c i : ℕ) → IsSome (content_of (reach graph items) (Prop c i))
        → ¬ IsLocation graph (reach graph items) (Prop c i)
        → content_of (step_of graph (reach graph items) j) (Prop c i)
        ≡ content_of (reach graph items) (Prop c i) }
    ensures items { (graph : Graph) → IsPlaced graph → IsSupplied graph → (items more : List ℕ)
        (c i : ℕ) → IsSome (content_of (reach graph items) (Prop c i))
        → ¬ IsLocation graph (reach graph items) (Prop c i)
        → content_of (reach graph (items ++ more)) (Prop c i)
        ≡ content_of (reach graph items) (Prop c i) }
    ensures stays { (graph : Graph) (state : State) (j c i : ℕ)
        → IsSome (content_of state (Prop c i)) → ¬ IsLocation graph state (Prop c i)
        → ¬ IsLocation graph (step_of graph state j) (Prop c i) }
{
    sw_machine_let_facts::lets_stay()
}

/// Once no frame is of a function that gives a global its first value, none is after any further
/// items, and each global that is a `let` keeps what it has.
pub fn global_lets_stay()
    ensures past { (graph : Graph) → IsPlaced graph → (items more : List ℕ)
        → IsPastFirsts graph (reach graph items)
        → IsPastFirsts graph (reach graph (items ++ more)) }
    ensures items { (graph : Graph) → IsPlaced graph → (items more : List ℕ) (g : ℕ)
        → IsPastFirsts graph (reach graph items) → ¬ IsLocation graph (reach graph items) (Global g)
        → content_of (reach graph (items ++ more)) (Global g)
        ≡ content_of (reach graph items) (Global g) }
{
    sw_machine_let_facts::global_lets_stay()
}

/// What is declared a `let` is no location, in each graph and state. So what the laws say of parts
/// and globals that are no locations, they say of each `let`.
pub fn lets_are_no_locations()
    ensures objects { (graph : Graph) (state : State) (c i k : ℕ) (parts : List Value)
        → slice_get state.cells c ≡ Some (cell.Object k parts) → IsLet graph k i
        → ¬ IsLocation graph state (Prop c i) }
    ensures actors { (graph : Graph) (state : State) (c i k : ℕ) (parts : List Value)
        → slice_get state.cells c ≡ Some (cell.Actor k parts) → IsLet graph k i
        → ¬ IsLocation graph state (Prop c i) }
    ensures globals { (graph : Graph) (state : State) (g : ℕ) (kind : GlobalKind)
        → slice_get graph.globals g ≡ Some kind → kind.mutable ≡ false
        → ¬ IsLocation graph state (Global g) }
{
    sw_machine_let_facts::lets_are_no_locations()
}

// Replays and replies.

/// Every text is the text of one list of items or has one first fault, and never both. The position
/// of a first fault is that of a byte of the text, or its end.
pub fn schedule_texts_have_one_reading()
    ensures some_reading { (bytes : List ℕ)
        → (outcome : Result (List ℕ) SchedFault) × HasItems bytes outcome }
    ensures one_list { (bytes a b : List ℕ) → IsItems bytes a → IsItems bytes b → a ≡ b }
    ensures one_fault { (bytes : List ℕ) (a b : SchedFault)
        → IsFirstFault bytes a → IsFirstFault bytes b → a ≡ b }
    ensures never_both { (bytes items : List ℕ) (fault : SchedFault)
        → IsItems bytes items → ¬ IsFirstFault bytes fault }
    ensures inside { (bytes : List ℕ) (fault : SchedFault)
        → IsFirstFault bytes fault → position_of fault ≤ length bytes }
{
    sw_replay::schedule_texts_have_one_reading()
}

/// The items of a text are numbers of 32 bits, and no more than a schedule has.
pub fn items_of_texts()
    ensures fit { (bytes items : List ℕ) → IsItems bytes items → All (λ item. item < 2 ^ 32) items }
    ensures few { (bytes items : List ℕ) → IsItems bytes items → length items ≤ MAX_ITEMS }
{
    sw_replay::items_of_texts()
}

/// Every list of items has one replay, for every graph. Where no prefix of the items leads to a
/// state that is racing, it takes all of them and finds no race, and what comes of it is the output
/// of the items.
pub fn items_have_one_replay()
    ensures some { (graph : Graph) (items : List ℕ) →
        (replay : Replay) × IsReplay graph items replay }
    ensures one { (graph : Graph) (items : List ℕ) (a b : Replay) →
        IsReplay graph items a → IsReplay graph items b → a ≡ b }
    ensures unraced { (graph : Graph) (items : List ℕ) (replay : Replay)
        → ((n : ℕ) → ¬ IsRacingAt graph items n) → IsReplay graph items replay
        → replay ≡ record { output = output_of graph items; race = None } }
{
    sw_replay::items_have_one_replay()
}

/// Every list of items has one of the four outcomes of accesses that are put in order, for every
/// graph: too many jobs, a first pair that is unordered, a trap, or ordered accesses.
pub fn items_have_one_order()
    ensures some { (graph : Graph) (items : List ℕ)
        → (replay : OrderReplay) × IsOrderReplay graph items replay }
    ensures one { (graph : Graph) (items : List ℕ) (a b : OrderReplay)
        → IsOrderReplay graph items a → IsOrderReplay graph items b → a ≡ b }
{
    sw_hb::items_have_one_order()
}

/// All bytes are tested as a certificate of a graph, with one answer.
pub fn texts_are_verified_in_one_way()
    ensures some { (graph : Graph) (bytes : List ℕ)
        → (result : Result (Unit {0}) CertFault) × Verified graph bytes result }
    ensures one { (graph : Graph) (bytes : List ℕ) (a b : Result (Unit {0}) CertFault)
        → Verified graph bytes a → Verified graph bytes b → a ≡ b }
{
    sw_cert::texts_are_verified_in_one_way()
}

/// The answer is Ok exactly if the bytes are a certificate of the graph that gives each function a
/// closed annotation in which each test passes.
pub fn accepted_certificates_are_ok()
    ensures { (graph : Graph) (bytes : List ℕ)
        → Verified graph bytes (Ok tt) ↔ IsAccepted graph bytes }
{
    sw_cert::accepted_certificates_are_ok()
}

/// A graph of which a certificate is accepted has no region breach.
pub fn accepted_certificates_show_no_breach()
    ensures { (graph : Graph) (bytes : List ℕ) → IsAccepted graph bytes → AreBreaches graph [] }
{
    sw_cert::accepted_certificates_show_no_breach()
}

/// Each graph has one certificate with the lines of its least annotations, however long.
pub fn graphs_have_certificates()
    ensures some { (graph : Graph) → (text : List ℕ) × IsLeastCertificate graph text }
    ensures one { (graph : Graph) (text other : List ℕ) → IsLeastCertificate graph text
        → IsLeastCertificate graph other → text ≡ other }
{
    sw_cert_making::graphs_have_certificates()
}

/// A certificate that is made for a graph without region breaches is accepted.
pub fn printed_certificates_are_accepted()
    ensures { (graph : Graph) (text : List ℕ) → AreBreaches graph []
        → IsLeastCertificate graph text → IsAccepted graph text }
{
    sw_cert_making::printed_certificates_are_accepted()
}

/// Over any files the words have one reply, and the same files are read for it.
pub fn words_have_one_reply()
    ensures some_reply { (command : Option Command) (files : List ℕ → List ℕ)
        → (reads : List Read) × (outcome : Outcome) × AreOf files reads
        × Reply command reads outcome }
    ensures one_reply { (command : Option Command) (files : List ℕ → List ℕ)
        (reads others : List Read) (a b : Outcome)
        → AreOf files reads → AreOf files others → Reply command reads a → Reply command others b
        → (reads ≡ others) × (a ≡ b) }
    // What was read before there is a reply is a prefix of what is read for it.
    ensures read_in_order { (command : Option Command) (files : List ℕ → List ℕ)
        (reads others : List Read) (outcome : Outcome)
        → AreOf files reads → AreOf files others → course_of command reads Underway
        → Reply command others outcome
        → IsPrefixOf reads others }
    // Whatever was read, there may be a reply.
    ensures goes_on { (command : Option Command) (reads : List Read)
        → course_of command reads Underway
        → (others : List Read) × (outcome : Outcome) × Reply command (reads ++ others) outcome }
    // Over any files a command that goes to its end ends in one way.
    ensures one_end { (files : List ℕ → List ℕ) (command : Command) (a b : Ending)
        → Ends a files command → Ends b files command → a ≡ b }
{
    sw_check::words_have_one_reply()
}

// The numbers that the definitions take from the code.

/// The limit that the definitions of replies take from here.
pub fn program_limit()
    ensures bytes { PROGRAM_LIMIT ≡ 262144 }
{
    sw_check::program_limit()
}

/// The limit of a certificate.
pub fn certificate_limit()
    ensures bytes { CERTIFICATE_LIMIT ≡ 4194304 }
{
    sw_check::certificate_limit()
}

/// The number of jobs up to which their accesses are put in order.
pub fn order_limit()
    ensures jobs { MOST_JOBS ≡ 256 }
{
    sw_check::order_limit()
}

/// The limit that the definitions of tokens take from here.
pub fn token_limit()
    ensures { MOST_TOKENS ≡ 65536 }
{
    sw_token::token_limit()
}

/// The limits of a function of a graph.
pub fn function_limits()
    ensures registers { MAX_REGISTERS ≡ 512 }
    ensures points { MAX_POINTS ≡ 16384 }
{
    sw_graph::function_limits()
}

/// The limits that the definitions of schedules take from here.
pub fn schedule_limits()
    ensures items { MAX_ITEMS ≡ 1000000 }
    ensures bytes { SCHEDULE_LIMIT ≡ 4194304 }
{
    sw_replay::schedule_limits()
}

/// The numbers that the definitions of the machine take from here.
pub fn machine_numbers()
    ensures frames { MAX_FRAMES ≡ 4096 }
    ensures jobs { MAX_JOBS ≡ 65536 }
    ensures no_register { NO_REGISTER ≡ 512 }
{
    sw_value::machine_numbers()
}

/// The codes of region breaches.
pub fn region_codes()
    ensures given_away { GIVEN_AWAY ≡ 701 }
    ensures to_actor { ISOLATED_TO_ACTOR ≡ 702 }
    ensures to_task { ISOLATED_TO_TASK ≡ 703 }
    ensures result { NOT_DISCONNECTED ≡ 704 }
{
    sw_region_flow::region_codes()
}
