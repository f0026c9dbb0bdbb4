ghost use Rattle.std.specs.Prelude.{◌≡◌, ◌↔◌, ℕ, List, [], Some, None, IsSome, IsTrue, false};
ghost use Rattle.std.specs.Prelude.{length, slice_get};
ghost use Rattle.sw_decls.specs.declared.signature.AsyncDefault.{AsyncDefault};
ghost use Rattle.sw_graph.specs.declared.graph.Graph.{Graph};
ghost use Rattle.sw_value.specs.declared.frame.Frame.{Frame};
ghost use Rattle.sw_value.specs.declared.job.Job.{Job};
ghost use Rattle.sw_value.specs.Act.{act_of};
ghost use Rattle.sw_value.specs.Effect.{effect_of, is_stuck};
ghost use Rattle.sw_value.specs.Job.{is_running, top_frame};
ghost use Rattle.sw_value.specs.Racing.{Racing};
ghost use Rattle.sw_value.specs.Reach.{reach, step_of};
ghost use Rattle.sw_before.specs.Events.{events_of};
ghost use Rattle.sw_before.specs.Unordered.{AreOrdered};
ghost use Rattle.sw_race.specs.Step.{BringsInItsOwn, HasRival};
ghost use Rattle.sw_machine_kind_facts.specs.Kinded.{Kinded};
ghost use Rattle.sw_machine_kind_facts.specs.Operands.{HasNext};
ghost use Rattle.sw_graph.specs.Supplied.{IsSupplied};
ghost use Rattle.sw_verdict.specs.Phases.{IsGraphOf, phases_to_size, answers_of_program};
ghost use Rattle.sw_verdict.specs.Verdict.{Breaches, Accepts};
ghost use Rattle.sw_graph.specs.Clean.{IsClean};
ghost use Rattle.sw_graph.specs.Placed.{IsPlaced};
ghost use Rattle.sw_isolation_rules.specs.Races.{races};

/// The graph of a text in which the phases up to the size of functions find no breach is placed,
/// under each default and whatever races it has: its calls, accesses, initialisers, closures and
/// tasks stand where their isolation lets them, and only classes have a global actor (SE-0306,
/// SE-0316, SE-0461).
pub fn texts_have_placed_graphs()
    ensures { (rule : AsyncDefault) (text : List ℕ) (graph : Graph)
        → Breaches rule phases_to_size text [] → IsGraphOf rule text graph → IsPlaced graph }
{}

/// The graph of a text that is accepted under a default is clean: it is placed, what crosses
/// between isolations may cross, and what declares that it is Sendable may say so (SE-0302,
/// SE-0412, SE-0430). So is that of each text besides that passes the phases up to the size of
/// functions and whose program shares no value that may not be, whatever breaches of regions it
/// has.
pub fn accepted_texts_have_clean_graphs()
    ensures accepted { (rule : AsyncDefault) (text : List ℕ) (graph : Graph) → Accepts rule text
        → IsGraphOf rule text graph → IsClean graph }
    ensures unshared { (rule : AsyncDefault) (text : List ℕ) (graph : Graph)
        → Breaches rule phases_to_size text [] → (of : IsGraphOf rule text graph)
        → races of.world (answers_of_program of.world of.decls) of.decls ≡ [] → IsClean graph }
{}

/// The graph of a text in which the phases up to the size of functions find no breach is supplied,
/// under each default and whatever races it has. So no list of items leads its machine to a running
/// job that is stuck: the job's next instruction finds its operands, of the kinds that it asks for,
/// and an item that names the job executes it, unless the machine is halted.
pub fn texts_never_get_stuck()
    ensures supplied { (rule : AsyncDefault) (text : List ℕ) (graph : Graph)
        → Breaches rule phases_to_size text [] → IsGraphOf rule text graph → IsSupplied graph }
    ensures never_stuck { (rule : AsyncDefault) (text : List ℕ) (graph : Graph)
        → Breaches rule phases_to_size text [] → IsGraphOf rule text graph
        → (items : List ℕ) (j : ℕ) (job : Job) (frame : Frame)
        → slice_get (reach graph items).jobs j ≡ Some job → IsTrue (is_running job)
        → top_frame job ≡ Some frame
        → is_stuck (effect_of graph (reach graph items) (length job.frames) frame) ≡ false }
    ensures executes { (rule : AsyncDefault) (text : List ℕ) (graph : Graph)
        → Breaches rule phases_to_size text [] → IsGraphOf rule text graph
        → (items : List ℕ) (j : ℕ) (job : Job)
        → (reach graph items).halted ≡ None → slice_get (reach graph items).jobs j ≡ Some job
        → IsTrue (is_running job) → IsSome (act_of graph (reach graph items) j) }
    ensures operands { (rule : AsyncDefault) (text : List ℕ) (graph : Graph)
        → Breaches rule phases_to_size text [] → IsGraphOf rule text graph
        → (items : List ℕ) (j : ℕ) (job : Job)
        → slice_get (reach graph items).jobs j ≡ Some job → IsTrue (is_running job)
        → (kinded : Kinded graph (reach graph items))
        × HasNext graph kinded.world.cells (reach graph items) job }
{}

/// Where the machine of such a graph isn't racing after some items, the step of a job brings in
/// races of that job alone. So the state after it is racing exactly where that job has a rival.
pub fn texts_race_by_their_last_step()
    ensures one_job { (rule : AsyncDefault) (text : List ℕ) (graph : Graph)
        → Breaches rule phases_to_size text [] → IsGraphOf rule text graph
        → (items : List ℕ) (j : ℕ) → BringsInItsOwn graph (reach graph items) j }
    ensures racing { (rule : AsyncDefault) (text : List ℕ) (graph : Graph)
        → Breaches rule phases_to_size text [] → IsGraphOf rule text graph
        → (items : List ℕ) (j : ℕ) → ¬ Racing graph (reach graph items)
        → (Racing graph (step_of graph (reach graph items) j)
        ↔ HasRival graph (step_of graph (reach graph items) j) j) }
{}

/// No state that the machine of an accepted text reaches is racing, under each default and for every
/// list of items, of any length.
pub fn accepted_texts_never_race()
    ensures { (rule : AsyncDefault) (text : List ℕ) (graph : Graph) → Accepts rule text
        → IsGraphOf rule text graph → (items : List ℕ) → ¬ Racing graph (reach graph items) }
{}

/// Of two accesses of one location by two jobs of an accepted text's machine, of which one writes,
/// the earlier one happens before the later, under each default and for every list of items, of any
/// length.
pub fn accepted_texts_order_their_accesses()
    ensures { (rule : AsyncDefault) (text : List ℕ) (graph : Graph) → Accepts rule text
        → IsGraphOf rule text graph → (items : List ℕ) → AreOrdered (events_of graph items) }
{}
