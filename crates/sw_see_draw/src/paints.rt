//! The colours of executors.

ghost use Rattle.std.specs.Prelude.{◌≡◌, ◌<◌, IfOk, string_bytes};
ghost use Rattle.sw_see_draw.specs.Paints.{hsl, hue, paint};

use std::alloc::{AllocError, Global};
use sw_value::Executor;

/// The hue of a number.
fn hue(number: u64) -> u64
    requires { number < 4294967297 }
    ensures { result ≡ hue number }
{
    (137 * number + 200) % 360
}

/// A colour with a hue and a lightness.
fn hsl(alloc: Global, hue: u64, light: u64) -> Result<String, AllocError>
    ensures { IfOk result (λ color. string_bytes color ≡ hsl hue light) }
{
    format!(in alloc; "hsl({hue},60%,{light}%)")
}

/// The colour of an executor.
#[tactic(auto, unfolding(crate::specs::Paints::paint))]
pub fn paint(alloc: Global, executor: Option<Executor>) -> Result<String, AllocError>
    ensures { IfOk result (λ color. string_bytes color ≡ paint executor) }
{
    match executor {
        None | Some(Executor::Generic) => String::from_str(alloc, "#b0b0b0"),
        Some(Executor::ActorOf(cell)) => hsl(alloc, hue(u64::from(cell)), 70),
        Some(Executor::Global(actor)) => hsl(alloc, hue(u64::from(actor) + 1), 45),
    }
}
