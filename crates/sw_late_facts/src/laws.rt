//! The laws of late colours.
ghost use Rattle.std.specs.Prelude.{◌≡◌, ◌⊎◌, ◌<◌, ℕ, List, length};
ghost use Rattle.std.specs.List.{All, AllPairs};
ghost use Rattle.sw_graph.specs.declared.graph.Graph.{Graph};
ghost use Rattle.sw_value.specs.Reach.{step_of, reach};
ghost use Rattle.sw_owner_facts.specs.Colours.{Actor, OfJob, OfActor};
ghost use Rattle.sw_owner_facts.specs.Within.{Becomes};
ghost use Rattle.sw_color_rules.specs.declared.colors.Owner.{Owner};
ghost use Rattle.sw_color_rules.specs.declared.colors.Palette.{Palette};
ghost use Rattle.sw_color_rules.specs.Palette.{IsWhole, fresh, merge, hand_over, owner_in};
ghost use Rattle.sw_color_rules.specs.Machine.{colored_reach, global_count};
ghost use Rattle.sw_late_facts.specs.Late.{Late, late_step, late_reach};
ghost use Rattle.sw_late_facts.specs.Alike.{AreAlike, delivered};
ghost use Rattle.sw_late_facts.specs.Carriers.{AwaitsActor, GoesToActor};
ghost use Rattle.sw_late_facts.specs.Hues.{hue, GivesWay};
ghost use Rattle.sw_late_facts.specs.Owners.{OwnByNumber, KeepNumbers, TakesOwn, IsTaken};
ghost use Rattle.sw_late_facts.specs.Owners.{AreOfOtherJobs};

/// With the colours removed, a step of the late colouring is the step of the machine.
pub fn late_colors_removed()
    ensures step { (graph : Graph) (late : Late) (item : ℕ) →
        (late_step graph late item).state ≡ step_of graph late.state item }
    ensures reach { (graph : Graph) (items : List ℕ) →
        (late_reach graph items).state ≡ reach graph items }
{}

/// In each state that items lead to, the late colours are those of the coloured machine, once all
/// that jobs take to actors is the actors'. The graph may be any; in one where colours of two
/// actors meet, the two may differ in which of these actors owns what is left.
pub fn late_colors_are_early_ones()
    ensures alike { (graph : Graph) (items : List ℕ) →
        AreAlike (colored_reach graph items).colors (delivered (late_reach graph items)) }
{}

/// A job that takes something to an actor isn't running, and its next dispatch is on that actor. The
/// colour that merges with what it takes is one that an actor or a global actor owns.
pub fn carriers_wait_for_their_actor()
    ensures waits { (graph : Graph) (items : List ℕ) →
        All (AwaitsActor (late_reach graph items).state (late_reach graph items).colors)
        (late_reach graph items).cargo }
    ensures goes { (graph : Graph) (items : List ℕ) →
        All (GoesToActor (late_reach graph items).colors) (late_reach graph items).cargo }
{}

/// In each state that items lead to, in both colourings, what an actor owns is one colour with the
/// number that is noted of the actor's cell, and what a global actor owns is one colour with the
/// number of that actor. The graph may be any.
pub fn owners_own_their_number()
    ensures early { (graph : Graph) (items : List ℕ) →
        OwnByNumber (global_count graph.functions) (colored_reach graph items).colors }
    ensures late { (graph : Graph) (items : List ℕ) →
        OwnByNumber (global_count graph.functions) (late_reach graph items).colors }
    ensures delivered { (graph : Graph) (items : List ℕ) →
        OwnByNumber (global_count graph.functions) (delivered (late_reach graph items)) }
{}

/// A job takes something to one actor at a time.
pub fn jobs_take_to_one_actor()
    ensures once { (graph : Graph) (items : List ℕ) →
        AllPairs AreOfOtherJobs (late_reach graph items).cargo }
{}

/// Where in the late colours each actor owns its own number, and what a job takes along is the job's
/// or that actor's to which it takes it, both colourings have the same owners: those of the coloured
/// machine are the late ones once all that jobs take to actors is the actors'. Until then they
/// differ in what a job takes along alone, which is the job's in one and the actor's in the other.
pub fn late_owners_are_early_ones()
    ensures same { (graph : Graph) (items : List ℕ)
        → KeepNumbers (global_count graph.functions) (late_reach graph items).colors
        → All (TakesOwn (late_reach graph items).colors) (late_reach graph items).cargo → (n : ℕ)
        → owner_in (colored_reach graph items).colors.palette n
        ≡ owner_in (delivered (late_reach graph items)).palette n }
    ensures delayed { (graph : Graph) (items : List ℕ)
        → KeepNumbers (global_count graph.functions) (late_reach graph items).colors
        → All (TakesOwn (late_reach graph items).colors) (late_reach graph items).cargo → (n : ℕ)
        → (owner_in (colored_reach graph items).colors.palette n
        ≡ owner_in (late_reach graph items).colors.palette n)
        ⊎ IsTaken (late_reach graph items) n
        (owner_in (colored_reach graph items).colors.palette n) }
{}

/// By hue, each change of a palette is one colour of a job that becomes another one, or nothing. Of
/// two colours that merge nothing is said if two actors own them, or two jobs: in programs that are
/// accepted no such colours meet.
pub fn changes_move_one_colour()
    ensures made { (owner : Owner) (palette : Palette) → IsWhole palette → (n : ℕ)
        → n < length palette.names → hue (fresh owner palette) n ≡ hue palette n }
    ensures merged { (a b : ℕ) (palette : Palette) → IsWhole palette → a < length palette.names
        → b < length palette.names → (job number : ℕ) → hue palette a ≡ OfJob job number
        → GivesWay (hue palette a) (hue palette b) → (n : ℕ)
        → Becomes (OfJob job number) (hue palette b) (hue palette n) (hue (merge a b palette) n) }
    ensures merged_into { (a b : ℕ) (palette : Palette) → IsWhole palette
        → a < length palette.names → b < length palette.names → (job number : ℕ)
        → hue palette b ≡ OfJob job number → GivesWay (hue palette b) (hue palette a) → (n : ℕ)
        → Becomes (OfJob job number) (hue palette a) (hue palette n) (hue (merge a b palette) n) }
    ensures same { (a b : ℕ) (palette : Palette) → IsWhole palette → a < length palette.names
        → b < length palette.names → hue palette a ≡ hue palette b → (n : ℕ)
        → hue (merge a b palette) n ≡ hue palette n }
    ensures handed { (n job : ℕ) (palette : Palette) → IsWhole palette → n < length palette.names
        → (owner number : ℕ) → hue palette n ≡ OfJob owner number → (m : ℕ)
        → Becomes (OfJob owner number) (OfJob job number) (hue palette m)
        (hue (hand_over n job palette) m) }
    ensures kept { (n job : ℕ) (palette : Palette) → IsWhole palette → (actor : Actor)
        → hue palette n ≡ OfActor actor → (m : ℕ) → hue (hand_over n job palette) m ≡ hue palette m }
{}
