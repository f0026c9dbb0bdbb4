//! Laws, without code: what a run makes is what its plan says.
ghost use Rattle.sw_lower_code.specs.Code.{Code};
ghost use Rattle.sw_lower_plans.specs.Plan.{Numbers};
ghost use Rattle.sw_lower_plans.specs.Run.{IsGoing, Making, Meets, place_of};
ghost use Rattle.sw_lower_code.specs.Whole.{Body, IsWhole, lower_body};

/// What the run of a piece of code makes is what its plan says of where it begins.
pub fn runs_make_plans<T>()
    ensures { (code : Code T) (making : Making) → IsGoing making
        → Meets making (code.run making) (code.plan (place_of making)) }
{}

/// The function that is made of a body is that of its whole lists, where these are within the
/// limits of a graph's functions; too many registers are named before too many points.
pub fn functions_are_their_plans()
    ensures { (number : Numbers) (body : Body) → IsWhole number body (lower_body number body) }
{}
