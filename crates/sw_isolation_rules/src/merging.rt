//! Breaches in order, each once.
ghost use Rattle.sw_isolation_rules.specs.Races.{IsMerged};

use sw_decl_words::Placed;
use sw_list::ListOf;

/// The breaches in order, each once.
pub fn merged(found: ListOf<Placed>) -> ListOf<Placed>
    ensures { IsMerged found result }
{
    let mut list = found.into_vec();
    list.sort_unstable();
    list.dedup();
    ListOf::from_vec(list)
}
