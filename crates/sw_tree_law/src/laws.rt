//! The laws.
ghost use Rattle.std.specs.Prelude.{◌≡◌, ℕ, List, []};
ghost use Rattle.sw_tree.specs.declared.decl.Decl.{Decl};
ghost use Rattle.sw_graph.specs.declared.graph.Graph.{Graph};
ghost use Rattle.sw_decls.specs.declared.signature.AsyncDefault.{AsyncDefault};
ghost use Rattle.sw_typing_rules.specs.Worlds.{World};
ghost use Rattle.sw_value.specs.Start.{start_of};
ghost use Rattle.sw_replay.specs.Output.{output_of};
ghost use Rattle.sw_verdict.specs.Phases.{HasWorld, IsGraphOf, phases_to_size};
ghost use Rattle.sw_verdict.specs.Verdict.{Accepts, Breaches};
ghost use Rattle.sw_tree_same.specs.States.{graph_events};
ghost use Rattle.sw_tree_race.specs.Racing.{TreeRacing};
ghost use Rattle.sw_tree_law.specs.Programs.{program_events, program_output, program_reach};

/// The machine on the written tree of a text gives the event that the machine on the text's graph
/// gives, at each item of each list, if the phases up to the size of functions find no breach in the
/// text, under each default and whatever races it has. So the lines are equal, what halts the machine
/// with its place, how many jobs have ended, and how many there are.
pub fn trees_run_as_graphs()
    ensures events { (rule : AsyncDefault) (text : List ℕ) (graph : Graph)
        → Breaches rule phases_to_size text [] → (of : IsGraphOf rule text graph) → (items : List ℕ)
        → program_events of.world of.decls items ≡ graph_events graph (start_of graph) items }
    ensures output { (rule : AsyncDefault) (text : List ℕ) (graph : Graph)
        → Breaches rule phases_to_size text [] → (of : IsGraphOf rule text graph) → (items : List ℕ)
        → program_output of.world of.decls items ≡ output_of graph items }
{}

/// In no state that the machine on the written tree of an accepted text reaches are two running jobs
/// about to access one `var` property of an object or an actor, one global `var`, or one captured
/// variable, of which one writes, under each default and for every list of items, of any length. The
/// states and the race name no graph, only what programs declare, what their nodes mean, and what the
/// forms of the language do. Acceptance goes by a graph, in its last phase (SE-0302, SE-0306, SE-0414).
pub fn accepted_trees_never_race()
    ensures { (rule : AsyncDefault) (text : List ℕ) (decls : List Decl) (world : World)
        → Accepts rule text → HasWorld rule text decls world → (items : List ℕ)
        → ¬ TreeRacing world (program_reach world decls items) }
{}
