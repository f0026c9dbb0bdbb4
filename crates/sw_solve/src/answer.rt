//! What the solver answers.
ghost use Rattle.std.specs.Prelude.{◌≡◌};
ghost use Rattle.std.specs.Option.{option_copied};
ghost use Rattle.sw_solve.specs.Annotation.{value_at};

use std::marker::Model;

/// The values of the points, by number; nothing at a point that is not reached. Contracts see it
/// as the list of what stands at the points.
#[derive(Drop)]
pub struct Solution<T> {
    values: Vec<Option<T>>,
}

impl<T> Model for Solution<T> {
    ghost use Rattle.std.specs.Prelude.{List, Option};
    ghost use Rattle.std.specs.Coded.{coded_list, coded_option};

    ghost Value = { List (Option T) };

    ghost coded = { coded_list (coded_option T.code) };

    ghost view = { λ s. s.values.items };
}

impl<T> Solution<T> {
    pub(crate) fn of_values(values: Vec<Option<T>>) -> Solution<T>
        ensures { result ≡ values.items }
    {
        Solution { values }
    }

    /// The value at the point; none where no way leads to it, and where there is no such point.
    pub fn at(&self, point: u32) -> Option<&T>
        ensures { option_copied result ≡ value_at self.now point }
    {
        self.values.get(point as usize)?.as_ref()
    }
}
