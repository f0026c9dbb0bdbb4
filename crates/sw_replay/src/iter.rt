ghost use Rattle.std.specs.Prelude.{◌≡◌};
ghost use Rattle.std.specs.Iterator.{YieldsFirst, item_count};
ghost use Rattle.sw_replay.specs.Items.{written_out};
ghost use Rattle.sw_replay.specs.Left.{items_left};

/// The items of a schedule that are left: a job a number of times, and then runs.
#[derive(Drop)]
pub struct Iter<'a> {
    job: u32,
    count: u32,
    runs: &'a [(u32, u32)],
}

impl<'a> Iter<'a> {
    /// The items of runs.
    pub fn new(runs: &'a [(u32, u32)]) -> Iter<'a>
        ensures { items_left result ≡ written_out runs.now }
    {
        Iter {
            job: 0,
            count: 0,
            runs,
        }
    }
}

impl<'a> Iterator for Iter<'a> {
    type Item = u32;

    ghost next_gives = { YieldsFirst items_left };

    ghost remaining = { item_count items_left };

    fn next(&mut self) -> Option<u32> {
        while self.count == 0 {
            let (run, others) = self.runs.split_first()?;
            self.job = run.0;
            self.count = run.1;
            self.runs = others;
        }
        self.count -= 1;
        Some(self.job)
    }
}
