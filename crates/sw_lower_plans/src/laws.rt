//! Laws, without code: what each step makes is what its plan says.
ghost use Rattle.std.specs.Prelude.{ℕ};
ghost use Rattle.sw_graph.specs.declared.function.RegKind.{RegKind};
ghost use Rattle.sw_graph.specs.declared.instr.Instr.{Instr};
ghost use Rattle.sw_graph.specs.declared.instr.Last.{Last};
ghost use Rattle.sw_lower_plans.specs.Plan.{Entry, Plan, plan_after, plan_bind, plan_block};
ghost use Rattle.sw_lower_plans.specs.Plan.{plan_close, plan_emit, plan_reg, plan_resume};
ghost use Rattle.sw_lower_plans.specs.Plan.{plan_scope};
ghost use Rattle.sw_lower_plans.specs.Run.{IsGoing, Making, Meets, Run, place_of, run_after};
ghost use Rattle.sw_lower_plans.specs.Run.{run_bind, run_block, run_close, run_emit, run_front};
ghost use Rattle.sw_lower_plans.specs.Run.{run_reg, run_resume, run_scope};
ghost use Rattle.sw_lower_plans.specs.declared.bound.Bound.{Bound};

/// Each single step makes what its plan says of the place at which the function has come.
pub fn steps_make_plans()
    ensures reg { (kind : RegKind) (making : Making) → IsGoing making
        → Meets making (run_reg kind making) (plan_reg kind (place_of making)) }
    ensures block { (entry : Entry) (making : Making) → IsGoing making
        → Meets making (run_block making) (plan_block entry (place_of making)) }
    ensures emit { (instr : Instr) (making : Making) → IsGoing making
        → Meets making (run_emit instr making) (plan_emit instr (place_of making)) }
    ensures front { (instr : Instr) (making : Making) → IsGoing making
        → Meets making (run_front instr making) (plan_emit instr (place_of making)) }
    ensures close { (last : Last) (making : Making) → IsGoing making
        → Meets making (run_close last making) (plan_close last (place_of making)) }
    ensures resume { (number : ℕ) (making : Making) → IsGoing making
        → Meets making (run_resume number making) (plan_resume number (place_of making)) }
    ensures bind { (bound : Bound) (making : Making) → IsGoing making
        → Meets making (run_bind bound making) (plan_bind bound (place_of making)) }
{}

/// Two runs, the one after the other, make what their plans say together.
pub fn runs_join<A, B>()
    ensures { (run : Run A) (plan : Plan A) (runs : A → Run B) (plans : A → Plan B)
        → ((s : Making) → IsGoing s → Meets s (run s) (plan (place_of s)))
        → ((value : A) (s : Making) → IsGoing s
        → Meets s (runs value s) (plans value (place_of s)))
        → (s : Making) → IsGoing s
        → Meets s (run_after (run s) runs) (plan_after plan plans (place_of s)) }
{}

/// A run whose variables are seen in it alone makes what its plan says without its variables.
pub fn scopes_end<A>()
    ensures { (run : Run A) (plan : Plan A)
        → ((s : Making) → IsGoing s → Meets s (run s) (plan (place_of s)))
        → (s : Making) → IsGoing s
        → Meets s (run_scope run s) (plan_scope plan (place_of s)) }
{}
