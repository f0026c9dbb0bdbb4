//! Where things stand in a picture, in pixels.

ghost use Rattle.std.specs.Prelude.{◌≡◌, ◌≤◌};
ghost use Rattle.sw_see_draw.specs.Layout.{column_x, lane_y};

/// The left side of the marks of a column.
pub fn column_x(column: u32) -> u64
    ensures value { result ≡ column_x column }
    ensures small { result ≤ 60129542200 }
{
    70 + 14 * u64::from(column)
}

/// The middle of the lane of a job.
pub fn lane_y(job: u64) -> u64
    requires { job ≤ 4294967296 }
    ensures value { result ≡ lane_y job }
    ensures low { 44 ≤ result }
    ensures small { result ≤ 309237645356 }
{
    44 + 72 * job
}
