//! Breaches in order, each place and code once.
ghost use Rattle.std.specs.Prelude.{◌≡◌, ◌==◌, ◌&&◌, ◌↔◌, Contains};
ghost use Rattle.std.specs.List.{dedup};
ghost use Rattle.std.specs.List.Sorted.{IsSorted};
ghost use Rattle.sw_breach.specs.Order.{breach_cmp};
ghost use Rattle.sw_breach.specs.declared.Breach.{Breach};
ghost use Rattle.sw_region_flow.specs.Breaches.{AreAll};
ghost use Rattle.sw_region_flow.specs.Listing.{is_alike};

use sw_breach::{Breach, breaches_are_in_order};

/// Whether two breaches have one position and one code.
fn is_alike(one: &Breach, other: &Breach) -> bool
    ensures { result ≡ is_alike one.now other.now }
{
    one.at == other.at && one.code == other.code
}

/// By position, then by code, then by note.
fn sorted(mut list: Vec<Breach>) -> Vec<Breach>
    ensures sorted { IsSorted breach_cmp result.items }
    ensures same { (breach : Breach) → Contains result.items breach ↔ Contains list.items breach }
{
    breaches_are_in_order();
    list.sort_unstable_by(|one, other| one.compare(other));
    list
}

/// Keeps the first of neighbours that have one position and one code.
fn without_repeats(mut list: Vec<Breach>) -> Vec<Breach>
    ensures { result.items ≡ dedup is_alike list.items }
{
    list.dedup_by(|one, other| is_alike(one, other));
    list
}

/// The breaches of a list by position, then by code. Those of one position and one code are one,
/// with the least note.
pub fn in_order(list: Vec<Breach>) -> Vec<Breach>
    ensures { AreAll (Contains list.items) result.items }
{
    breaches_are_in_order();
    without_repeats(sorted(list))
}
