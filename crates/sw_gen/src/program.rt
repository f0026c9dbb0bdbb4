ghost use Rattle.std.specs.Prelude.{◌≡◌, ◌≤◌, ◌++◌, ◌+◌, ◌*◌, OnOk, IfOk, flat_map, length};
ghost use Rattle.std.specs.List.{range_with_len};
ghost use Rattle.sw_gen.specs.Program.{filled, piece, program};

use crate::MAX_ACTORS;
use std::alloc::{AllocError, Global};

/// An actor, and a function that calls it once from a task. `#` stands for the actor's number.
const BLOCK: &str = "actor A# {
  var n = 0
  func add(_ k: Int) -> Int {
    n += k
    return n
  }
}
func f#() async {
  let a = A#()
  let t = Task.detached { await a.add(#) }
  print(await t.value)
}
";

const ENTRY_START: &str = "@main struct App {
  static func main() async {
";

/// The entry's call of a function. `#` stands for its number.
const CALL: &str = "    await f#()
";

const ENTRY_END: &str = "  }
}
";

/// Adds a byte of a template, or the digits in the place of a `#`.
fn push_byte(text: &mut Vec<u8>, byte: u8, digits: &[u8]) -> Result<(), AllocError>
    ensures { OnOk result (text.new.items ≡ text.old.items ++ piece digits.now byte) }
{
    if byte == b'#' {
        text.extend_from_slice(digits)?;
    } else {
        text.push(byte)?;
    }
    Ok(())
}

/// Adds a template with the number in the place of each `#`.
fn push_filled(
    alloc: Global,
    text: &mut Vec<u8>,
    template: &[u8],
    number: u32,
) -> Result<(), AllocError>
    ensures { OnOk result
        (text.new.items ≡ text.old.items ++ filled template.now number) }
{
    let digits = format!(in alloc; "{number}")?;
    for &byte in template {
        push_byte(text, byte, digits.as_bytes())?;
    }
    Ok(())
}

/// Adds a template for each number from 1 to `n`, in turn.
fn push_each(alloc: Global, text: &mut Vec<u8>, template: &[u8], n: u32) -> Result<(), AllocError>
    requires { n ≤ MAX_ACTORS }
    ensures { OnOk result (text.new.items
        ≡ text.old.items ++ flat_map (filled template.now) (range_with_len 1 n)) }
{
    for number in 1..n + 1 {
        push_filled(alloc, text, template, number)?;
    }
    Ok(())
}

/// The text of the program of `n` actors.
#[tactic(auto, unfolding(crate::specs::Program::program))]
pub fn make_program(alloc: Global, n: u32) -> Result<Vec<u8>, AllocError>
    requires { n ≤ MAX_ACTORS }
    ensures text { IfOk result (λ text. text.items ≡ program n) }
    ensures short { IfOk result (λ text. length text.items ≤ 600 * n + 70) }
{
    let mut text = Vec::new(alloc);
    push_each(alloc, &mut text, BLOCK.as_bytes(), n)?;
    text.extend_from_slice(ENTRY_START.as_bytes())?;
    push_each(alloc, &mut text, CALL.as_bytes(), n)?;
    text.extend_from_slice(ENTRY_END.as_bytes())?;
    Ok(text)
}
