//! The laws of ownership. Each move of a running program keeps the invariant, and the invariant
//! keeps jobs apart.
ghost use Rattle.std.specs.Prelude.{◌≡◌, ◌≢◌, ◌⊎◌, ℕ, List, false, IsTrue};
ghost use Rattle.sw_owner_facts.specs.Colours.{Actor, Colour, OfJob, OfActor, On};
ghost use Rattle.sw_owner_facts.specs.View.{Frame, Element, View, IsLowerFrame, IsFrame, IsTop};
ghost use Rattle.sw_owner_facts.specs.View.{IsolatedTo};
ghost use Rattle.sw_owner_facts.specs.View.{MakesActor, HoldsLive, IsUnheld, IsDisconnected};
ghost use Rattle.sw_owner_facts.specs.Owned.{IsOwned, IsSound};
ghost use Rattle.sw_owner_facts.specs.Within.{Kept, Within, Comes, put_with, without, Weakened};
ghost use Rattle.sw_owner_facts.specs.Within.{Freshened, Merged, Recoloured, GivenAway, BeginsClosing};
ghost use Rattle.sw_owner_facts.specs.Within.{Dispatched};
ghost use Rattle.sw_owner_facts.specs.Calls.{CalledPlain, CalledSame, CalledWeak, CalledStrong};
ghost use Rattle.sw_owner_facts.specs.Calls.{CalledMake, Spawned, Returned, JobEnded};

/// Who holds one colour: frames of one job, or frames that stand on the actor that owns it. So of
/// the jobs that run, one at most holds it live in its top frame, which is the frame that reads and
/// writes.
pub fn colours_have_one_owner()
    ensures one_owner { (w : View) → IsOwned w → (p q : Frame) (x y : Element) (c : Colour)
        → HoldsLive w p x c → HoldsLive w q y c
        → (p.job ≡ q.job)
        ⊎ ((a : Actor) × (c ≡ OfActor a) × ((w.shape p).executor ≡ On a)
        × ((w.shape q).executor ≡ On a)) }
    ensures one_runner { (w : View) → IsOwned w → (p q : Frame) (x y : Element) (c : Colour)
        → IsTrue (w.running p.job) → IsTrue (w.running q.job) → IsTop w p → IsTop w q
        → HoldsLive w p x c → HoldsLive w q y c → p.job ≡ q.job }
{}

/// Before the first job starts.
pub fn no_frames_are_sound()
    ensures { (w : View) → ((j : ℕ) → w.height j ≡ 0) → IsSound w }
{}

/// What changes inside the top frame of a job; and what only ends, as when a job leaves its
/// executor.
pub fn changes_keep_soundness()
    ensures within { (old new : View) (q : Frame) (origin : Element → Element)
        → IsSound old → Within old new q origin → IsSound new }
    ensures comes { (old new : View) (q : Frame) (origins : Element → List Element)
        → IsSound old → Comes old new q origins → IsSound new }
    ensures weakened { (old new : View) → IsSound old → Weakened old new → IsSound new }
    ensures freshened { (old new : View) (q : Frame) (r number : ℕ)
        → IsSound old → Freshened old new q r number → IsSound new }
{}

/// The operations of a region state (SE-0414), as such changes: `put r y`, after which register r
/// holds no more than y; `join`, and `need` and `free`, which change nothing; and `fresh r` of a
/// register that gets no colour.
pub fn operations_keep_soundness()
    ensures put { (old new : View) (q : Frame) (r : ℕ) (y : Element)
        → IsSound old → Within old new q (put_with r y) → IsSound new }
    ensures join { (old new : View) (q : Frame)
        → IsSound old → Within old new q (λ x. x) → IsSound new }
    ensures fresh { (old new : View) (q : Frame) (r : ℕ)
        → IsSound old → Comes old new q (without r) → IsSound new }
{}

/// Two colours become one. Of two colours that a frame holds one can go, since it is the job's. The
/// one that is kept is the job's too, or that of the actor whose colour `Here` has: no other owner
/// takes over what a frame holds.
pub fn merging_keeps_soundness()
    ensures one_can_go { (w : View) (p : Frame) (x y : Element) (c d : Colour)
        → IsOwned w → HoldsLive w p x c → HoldsLive w p y d
        → (c ≡ d) ⊎ ((n : ℕ) × ((c ≡ OfJob p.job n) ⊎ (d ≡ OfJob p.job n))) }
    ensures owner { (old new : View) (q : Frame) (x y : Element) (number : ℕ) (kept : Colour)
        → IsOwned old → Merged old new q x y number kept
        → ((n : ℕ) × (kept ≡ OfJob q.job n))
        ⊎ ((a : Actor) × (kept ≡ OfActor a) × (old.here q ≡ OfActor a)) }
    ensures kept { (old new : View) (q : Frame) (x y : Element) (number : ℕ) (kept : Colour)
        → IsSound old → Merged old new q x y number kept → IsSound new }
{}

/// What is given away is disconnected: nothing live holds its colours, and they may get another
/// owner.
pub fn giving_keeps_soundness()
    ensures given { (old new : View) (q : Frame) (x : Element)
        → IsSound old → GivenAway old new q x → IsSound new }
    ensures disconnected { (old new : View) (q : Frame) (x : Element) (c : Colour)
        → IsSound old → GivenAway old new q x → HoldsLive old q x c → IsDisconnected new q.job c }
    ensures unheld { (old new : View) (j number : ℕ) (kept : Colour)
        → IsSound old → IsUnheld old (OfJob j number) → Recoloured old new j number kept
        → IsSound new }
{}

/// An initialiser has only its return left. What an actor's initialiser held by then may become the
/// actor's. The initialiser of a class with a global actor may have held that actor's colour too:
/// of what it held, the colours of its job may become the actor's.
pub fn closing_keeps_soundness()
    ensures closed { (old new : View) (q : Frame) → IsSound old → BeginsClosing old new q
        → IsSound new }
    ensures disconnected { (old new : View) (q : Frame) (x : Element) (c : Colour)
        → IsSound old → BeginsClosing old new q → (old.shape q).isolation ≡ MakesActor
        → HoldsLive old q x c → IsDisconnected new q.job c }
    ensures unheld { (old new : View) (q : Frame) (x : Element) (a : Actor) (number : ℕ)
        → IsSound old → BeginsClosing old new q → old.here q ≡ OfActor a
        → HoldsLive old q x (OfJob q.job number) → IsUnheld new (OfJob q.job number) }
{}

/// Each kind of call.
pub fn calls_keep_soundness()
    ensures plain { (old new : View) (p : Frame) → IsSound old → CalledPlain old new p
        → IsSound new }
    ensures same { (old new : View) (p : Frame) (a : Actor) → IsSound old → CalledSame old new p a
        → IsSound new }
    ensures weak { (old new : View) (p : Frame) → IsSound old → CalledWeak old new p → IsSound new }
    ensures strong { (old new : View) (p : Frame) (a : Actor) → IsSound old
        → CalledStrong old new p a → IsSound new }
    ensures make { (old new : View) (p : Frame) → IsSound old → CalledMake old new p → IsSound new }
{}

/// A task, which may carry what only its job holds.
pub fn tasks_keep_soundness()
    ensures { (old new : View) (j : ℕ) → IsSound old → Spawned old new j → IsSound new }
{}

/// The return of a call, and of the last frame of a job.
pub fn returns_keep_soundness()
    ensures returned { (old new : View) (p : Frame) (r : ℕ) → IsSound old → Returned old new p r
        → IsSound new }
    ensures ended { (old new : View) (j : ℕ) → IsSound old → JobEnded old new j → IsSound new }
{}

/// A job gets its executor.
pub fn dispatch_keeps_soundness()
    ensures { (old new : View) (j : ℕ) → IsSound old → Dispatched old new j → IsSound new }
{}

/// What other jobs do to colours gives no colour to a job's frames and parts no region of theirs,
/// whether the job runs or is suspended, and whatever actor its frames stand on meanwhile.
pub fn suspended_frames_stay()
    ensures merged { (old new : View) (q : Frame) (x y : Element) (number : ℕ) (kept : Colour)
        → IsSound old → Merged old new q x y number kept
        → (p : Frame) → p.job ≢ q.job → IsFrame old p → (old.shape p).closing ≡ false
        → Kept old new p }
    ensures unheld { (old new : View) (j number : ℕ) (kept : Colour)
        → IsUnheld old (OfJob j number) → Recoloured old new j number kept
        → (p : Frame) → IsFrame old p → (old.shape p).closing ≡ false → Kept old new p }
{}

/// A frame that stands on an actor is one of a function isolated to it, or lies above such a frame
/// of its job.
pub fn actors_are_anchored()
    ensures { (w : View) (p : Frame) (a : Actor) → IsSound w → IsFrame w p
        → (w.shape p).executor ≡ On a
        → (o : Frame) × ((o ≡ p) ⊎ IsLowerFrame o p) × ((w.shape o).isolation ≡ IsolatedTo a) }
{}
