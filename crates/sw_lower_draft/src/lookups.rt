//! What is asked of the parts of a draft.
ghost use Rattle.std.specs.Prelude.{◌≡◌};
ghost use Rattle.std.specs.List.{list_all};
ghost use Rattle.sw_graph.specs.Payloads.{is_payload};
ghost use Rattle.sw_lower_plans.specs.Plan.{var_in};

use sw_graph::Instr;
use sw_lower_plans::Bound;

/// Whether an instruction takes a payload.
pub fn is_payload(instr: &Instr) -> bool
    ensures { result ≡ is_payload instr.now }
{
    match instr {
        Instr::Payload { .. } => true,
        Instr::Const { .. }
        | Instr::Un { .. }
        | Instr::Bin { .. }
        | Instr::Print { .. }
        | Instr::Copy { .. }
        | Instr::Field { .. }
        | Instr::SetField { .. }
        | Instr::Make { .. }
        | Instr::NewObject { .. }
        | Instr::NewBox { .. }
        | Instr::NewActor { .. }
        | Instr::LoadBox { .. }
        | Instr::StoreBox { .. }
        | Instr::LoadProp { .. }
        | Instr::StoreProp { .. }
        | Instr::LoadGlobal { .. }
        | Instr::StoreGlobal { .. }
        | Instr::NewClosure { .. }
        | Instr::Call { .. }
        | Instr::CallClosure { .. }
        | Instr::NewTask { .. }
        | Instr::Await { .. }
        | Instr::Yield { .. } => false,
    }
}

/// Whether all instructions take payloads.
pub fn all_payloads(instrs: &[Instr]) -> bool
    ensures { result ≡ list_all is_payload instrs.now }
{
    instrs.iter().all(is_payload)
}

/// The first variable with a key.
pub fn var_in(vars: &[Bound], key: u32) -> Option<Bound>
    ensures { result ≡ var_in key vars.now }
{
    for bound in vars {
        if bound.key == key {
            return Some(*bound);
        }
    }
    None
}
