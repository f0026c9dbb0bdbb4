ghost use Rattle.std.specs.Prelude.{◌+◌, List, drop};
ghost use Rattle.sw_see_events.specs.declared.happening.Happening.{Happening};
ghost use Rattle.sw_see_draw.specs.Covers.{Covers};
ghost use Rattle.sw_see_draw.specs.Marks.{drawn, marks};
ghost use Rattle.sw_see_draw.specs.Picture.{left_out};

/// The marks of a picture are for all events, each once, in order, and each mark is for events of
/// its own job.
pub fn marks_cover_events()
    ensures covers { (events : List Happening) → Covers 1 (marks events) events }
{}

/// The marks that a picture shows are the last of these, and are for all events but the first ones,
/// whose number the picture says.
pub fn drawn_marks_cover_last_events()
    ensures covers { (events : List Happening)
        → Covers (1 + left_out (drawn (marks events))) (drawn (marks events))
        (drop (left_out (drawn (marks events))) events) }
{}
