ghost use Rattle.std.specs.Prelude.{[], ℕ, List};
ghost use Rattle.sw_decls.specs.declared.signature.AsyncDefault.{AsyncDefault};
ghost use Rattle.sw_verdict.specs.Phases.{all_phases, phases_to_size};
ghost use Rattle.sw_verdict.specs.Verdict.{Accepts, Breaches, Refuses};
ghost use Rattle.sw_check_text.specs.Verdicts.{Accepting, IsVerdictOn, NamesRaces, Refusing};

use crate::checking::Verdict;

/// The verdict accepts exactly the texts in which no phase finds a breach. It names races exactly
/// where the last phase is the first that finds any, and refuses exactly where an earlier phase
/// does.
pub fn verdicts_are_exact()
    ensures accepted { (rule : AsyncDefault) (text : List ℕ) (verdict : Verdict)
        → IsVerdictOn rule text verdict → Accepts rule text → Accepting verdict }
    ensures races { (rule : AsyncDefault) (text : List ℕ) (verdict : Verdict)
        → IsVerdictOn rule text verdict → Breaches rule phases_to_size text []
        → Refuses rule all_phases text → NamesRaces verdict }
    ensures refused { (rule : AsyncDefault) (text : List ℕ) (verdict : Verdict)
        → IsVerdictOn rule text verdict → Refuses rule phases_to_size text → Refusing verdict }
{}
