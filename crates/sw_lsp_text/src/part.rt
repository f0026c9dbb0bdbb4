//! Parts of a message: texts, numbers and places in its JSON.
ghost use Rattle.std.specs.Prelude.{◌≡◌, option_map};
ghost use Rattle.serde_json.specs.View.{view};
ghost use Rattle.sw_lsp_text.specs.Parts.{place_in, range_in, small_at, text_at, text_behind};

use crate::place::{Place, Range};
use serde_json::Value;

/// The text of a member.
pub fn text_at<'v>(value: &'v Value, name: &str) -> Option<&'v str>
    ensures { option_map (λ text. text.now) result ≡ text_at name.now (view value.now) }
{
    value.get(name).and_then(Value::as_str)
}

/// The text at the end of a path.
pub fn text_behind<'v>(value: &'v Value, path: &str) -> Option<&'v str>
    ensures { option_map (λ text. text.now) result ≡ text_behind path.now (view value.now) }
{
    value.pointer(path).and_then(Value::as_str)
}

/// The number of a member, if it is a whole number below 2^32.
fn small_at(value: &Value, name: &str) -> Option<u32>
    ensures { result ≡ small_at name.now (view value.now) }
{
    let number = value.get(name).and_then(Value::as_u64)?;
    u32::try_from(number).ok()
}

/// The place that a JSON is.
pub fn place_in(value: &Value) -> Option<Place>
    ensures { result ≡ place_in (view value.now) }
{
    let line = small_at(value, "line")?;
    let character = small_at(value, "character")?;
    Some(Place { line, character })
}

/// The range that a JSON is.
#[tactic(auto, unfolding(crate::specs::Parts::range_in))]
pub fn range_in(value: &Value) -> Option<Range>
    ensures { result ≡ range_in (view value.now) }
{
    let start = place_in(value.get("start")?)?;
    let end = place_in(value.get("end")?)?;
    Some(Range { start, end })
}
