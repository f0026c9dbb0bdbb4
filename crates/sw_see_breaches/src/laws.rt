ghost use Rattle.std.specs.Prelude.{ℕ, IsSome};
ghost use Rattle.sw_breach.specs.Codes.{IsCode};
ghost use Rattle.sw_see_breaches.specs.Remedies.{remedy_of};

/// Each code has a remedy.
pub fn codes_have_remedies()
    ensures { (code : ℕ) → IsCode code → IsSome (remedy_of code) }
{}
