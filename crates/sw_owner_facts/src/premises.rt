//! Each move can be made, and none of its premises can go.
//!
//! For each move, `whole` says that its premises taken one by one are the move; `possible`, that
//! they can be met together from a sound view; and `needed`, that without any one of them the move
//! leads from some sound view to one for which its law does not hold. Of a weak call they speak
//! only where the callee's `Here` takes the colour of an argument. Of a plain call that shares an
//! argument, and of what an initialiser hands over, only some of the three are stated.
ghost use Rattle.std.specs.Prelude.{ℕ, List};
ghost use Rattle.sw_owner_facts.specs.Colours.{Actor, Colour};
ghost use Rattle.sw_owner_facts.specs.View.{Frame, Element, View};
ghost use Rattle.sw_owner_facts.specs.Within.{Within, Comes, Freshened, Weakened, Merged, Recoloured};
ghost use Rattle.sw_owner_facts.specs.Within.{GivenAway, BeginsClosing, Dispatched};
ghost use Rattle.sw_owner_facts.specs.Calls.{CalledPlain, CalledSame, CalledWeak, CalledStrong};
ghost use Rattle.sw_owner_facts.specs.Calls.{CalledMake, Spawned, Returned, JobEnded};
ghost use Rattle.sw_owner_facts.specs.Premises.{IsPossible, IsNeeded, StaysSound, LeavesNothing};
ghost use Rattle.sw_owner_facts.specs.Premises.{HandsOver, ClosedPremise, ComesPremise};
ghost use Rattle.sw_owner_facts.specs.Premises.{DispatchedPremise, EndedPremise, FreshenedPremise};
ghost use Rattle.sw_owner_facts.specs.Premises.{GivenPremise, HandsOverPremise, MakePremise};
ghost use Rattle.sw_owner_facts.specs.Premises.{MergedPremise, PlainPremise, ReturnedPremise};
ghost use Rattle.sw_owner_facts.specs.Premises.{SamePremise, SharesPremise, SpawnedPremise};
ghost use Rattle.sw_owner_facts.specs.Premises.{StrongPremise, UnheldPremise, WeakPremise};
ghost use Rattle.sw_owner_facts.specs.Premises.{WeakenedPremise, WithinPremise, closed_says, comes_says};
ghost use Rattle.sw_owner_facts.specs.Premises.{dispatched_says, ended_says, freshened_says, given_says};
ghost use Rattle.sw_owner_facts.specs.Premises.{hands_over_says, make_says, merged_says, plain_says};
ghost use Rattle.sw_owner_facts.specs.Premises.{returned_says, same_says, shares_says, spawned_says};
ghost use Rattle.sw_owner_facts.specs.Premises.{strong_says, unheld_says, weak_says, weakened_says};
ghost use Rattle.sw_owner_facts.specs.Premises.{within_says};

/// What changes inside a frame, and what only ends.
pub fn premises_of_changes()
    ensures within_whole { (old new : View) (q : Frame) (origin : Element → Element)
        → ((premise : WithinPremise) → within_says old new (q, origin) premise)
        → Within old new q origin }
    ensures within_possible { IsPossible within_says }
    ensures within_needed { (premise : WithinPremise) → IsNeeded within_says StaysSound premise }
    ensures comes_whole { (old new : View) (q : Frame) (origins : Element → List Element)
        → ((premise : ComesPremise) → comes_says old new (q, origins) premise)
        → Comes old new q origins }
    ensures comes_possible { IsPossible comes_says }
    ensures comes_needed { (premise : ComesPremise) → IsNeeded comes_says StaysSound premise }
    ensures freshened_whole { (old new : View) (q : Frame) (r number : ℕ)
        → ((premise : FreshenedPremise) → freshened_says old new (q, r, number) premise)
        → Freshened old new q r number }
    ensures freshened_possible { IsPossible freshened_says }
    ensures freshened_needed { (premise : FreshenedPremise)
        → IsNeeded freshened_says StaysSound premise }
    ensures weakened_whole { (old new : View)
        → ((premise : WeakenedPremise) → weakened_says old new tt premise)
        → Weakened old new }
    ensures weakened_possible { IsPossible weakened_says }
    ensures weakened_needed { (premise : WeakenedPremise)
        → IsNeeded weakened_says StaysSound premise }
{}

/// Moves of colours, and what a job needs to run.
pub fn premises_of_colours()
    ensures merged_whole { (old new : View) (q : Frame) (x y : Element) (number : ℕ) (kept : Colour)
        → ((premise : MergedPremise) → merged_says old new (q, x, y, number, kept) premise)
        → Merged old new q x y number kept }
    ensures merged_possible { IsPossible merged_says }
    ensures merged_needed { (premise : MergedPremise) → IsNeeded merged_says StaysSound premise }
    ensures unheld_whole { (old new : View) (j number : ℕ) (kept : Colour)
        → ((premise : UnheldPremise) → unheld_says old new (j, number, kept) premise)
        → Recoloured old new j number kept }
    ensures unheld_possible { IsPossible unheld_says }
    ensures unheld_needed { (premise : UnheldPremise) → IsNeeded unheld_says StaysSound premise }
    ensures given_whole { (old new : View) (q : Frame) (x : Element)
        → ((premise : GivenPremise) → given_says old new (q, x) premise)
        → GivenAway old new q x }
    ensures given_possible { IsPossible given_says }
    ensures given_needed { (premise : GivenPremise) → IsNeeded given_says LeavesNothing premise }
    ensures closed_whole { (old new : View) (q : Frame)
        → ((premise : ClosedPremise) → closed_says old new q premise)
        → BeginsClosing old new q }
    ensures closed_possible { IsPossible closed_says }
    ensures closed_needed { (premise : ClosedPremise) → IsNeeded closed_says StaysSound premise }
    ensures hands_over_needed { (premise : HandsOverPremise)
        → IsNeeded hands_over_says HandsOver premise }
    ensures dispatched_whole { (old new : View) (j : ℕ)
        → ((premise : DispatchedPremise) → dispatched_says old new j premise)
        → Dispatched old new j }
    ensures dispatched_possible { IsPossible dispatched_says }
    ensures dispatched_needed { (premise : DispatchedPremise)
        → IsNeeded dispatched_says StaysSound premise }
{}

/// Each kind of call, and a task.
pub fn premises_of_calls()
    ensures plain_whole { (old new : View) (p : Frame)
        → ((premise : PlainPremise) → plain_says old new p premise)
        → CalledPlain old new p }
    ensures plain_possible { IsPossible plain_says }
    ensures plain_needed { (premise : PlainPremise) → IsNeeded plain_says StaysSound premise }
    ensures shares_whole { (old new : View) (p : Frame) (s : Element)
        → ((premise : SharesPremise) → shares_says old new (p, s) premise)
        → CalledPlain old new p }
    ensures shares_needed { (premise : SharesPremise) → IsNeeded shares_says StaysSound premise }
    ensures same_whole { (old new : View) (p : Frame) (a : Actor)
        → ((premise : SamePremise) → same_says old new (p, a) premise)
        → CalledSame old new p a }
    ensures same_possible { IsPossible same_says }
    ensures same_needed { (premise : SamePremise) → IsNeeded same_says StaysSound premise }
    ensures weak_whole { (old new : View) (p : Frame) (s : Element)
        → ((premise : WeakPremise) → weak_says old new (p, s) premise)
        → CalledWeak old new p }
    ensures weak_possible { IsPossible weak_says }
    ensures weak_needed { (premise : WeakPremise) → IsNeeded weak_says StaysSound premise }
    ensures strong_whole { (old new : View) (p : Frame) (a : Actor)
        → ((premise : StrongPremise) → strong_says old new (p, a) premise)
        → CalledStrong old new p a }
    ensures strong_possible { IsPossible strong_says }
    ensures strong_needed { (premise : StrongPremise) → IsNeeded strong_says StaysSound premise }
    ensures make_whole { (old new : View) (p : Frame)
        → ((premise : MakePremise) → make_says old new p premise)
        → CalledMake old new p }
    ensures make_possible { IsPossible make_says }
    ensures make_needed { (premise : MakePremise) → IsNeeded make_says StaysSound premise }
    ensures spawned_whole { (old new : View) (j : ℕ)
        → ((premise : SpawnedPremise) → spawned_says old new j premise)
        → Spawned old new j }
    ensures spawned_possible { IsPossible spawned_says }
    ensures spawned_needed { (premise : SpawnedPremise) → IsNeeded spawned_says StaysSound premise }
{}

/// The return of a call, and the end of a job.
pub fn premises_of_returns()
    ensures returned_whole { (old new : View) (p : Frame) (r : ℕ)
        → ((premise : ReturnedPremise) → returned_says old new (p, r) premise)
        → Returned old new p r }
    ensures returned_possible { IsPossible returned_says }
    ensures returned_needed { (premise : ReturnedPremise)
        → IsNeeded returned_says StaysSound premise }
    ensures ended_whole { (old new : View) (j : ℕ)
        → ((premise : EndedPremise) → ended_says old new j premise)
        → JobEnded old new j }
    ensures ended_possible { IsPossible ended_says }
    ensures ended_needed { (premise : EndedPremise) → IsNeeded ended_says StaysSound premise }
{}
