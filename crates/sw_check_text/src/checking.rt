ghost use Rattle.std.specs.Prelude.{◌≤◌, IfOk, List, ℕ, length};
ghost use Rattle.sw_decls.specs.declared.signature.AsyncDefault.{AsyncDefault};
ghost use Rattle.sw_verdict.specs.Judged.{IsJudged};
ghost use Rattle.sw_check_text.specs.Verdicts.{IsVerdictOn};

use std::alloc::{AllocError, Global};
use sw_breach::Breach;
use sw_decls::AsyncDefault;
use sw_graph::Graph;
use sw_list::ListOf;
use sw_sound::Checked;
use sw_text::MAX_LENGTH;
use sw_verdict::{Judged, NamedGraph, Refusal, judge};

/// The verdict on a text.
#[derive(Drop)]
pub enum Verdict {
    /// No phase finds a breach. The global actors of the program have these names, by number.
    Accepted {
        checked: Checked,
        actors: ListOf<String>,
    },
    /// The last phase finds these breaches, and no other phase finds any: the program has this
    /// graph, and it may race. The list isn't empty.
    Races {
        graph: Graph,
        breaches: ListOf<Breach>,
    },
    /// A phase before the last finds this breach, and those before it find none.
    Refused {
        breach: Breach,
    },
}

/// The verdict on a text that was judged.
fn verdict_on(judged: Judged) -> Verdict
    requires { (rule : AsyncDefault) × (text : List ℕ) × IsJudged rule text judged }
    ensures { (rule : AsyncDefault) (text : List ℕ) → IsJudged rule text judged
        → IsVerdictOn rule text result }
{
    let Judged { made, races } = judged;
    let NamedGraph { graph, actors } = made;
    if races.is_empty() {
        Verdict::Accepted {
            checked: Checked::of_passed(graph),
            actors,
        }
    } else {
        Verdict::Races {
            graph,
            breaches: races,
        }
    }
}

/// Judges a text under a default for asynchronous functions. It answers an error only for want of
/// memory.
pub fn check_text(alloc: Global, bytes: &[u8], default: AsyncDefault) -> Result<Verdict, AllocError>
    requires { length bytes.now ≤ MAX_LENGTH }
    ensures { IfOk result (IsVerdictOn default bytes.now) }
{
    match judge(alloc, bytes, default) {
        Ok(judged) => Ok(verdict_on(judged)),
        Err(Refusal::Breached { breach }) => Ok(Verdict::Refused { breach }),
        Err(Refusal::Memory) => Err(AllocError),
    }
}
