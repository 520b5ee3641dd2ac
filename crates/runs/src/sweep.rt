// Test 6 of a run list, along the order of the runs by image.
ghost use Rattle.std.specs.Prelude.{◌≡◌, ◌<◌, ◌≤◌, length};
ghost use Rattle.runs.specs.Runs.{runs_in};
ghost use Rattle.runs.specs.Check.{overlaps};
ghost use Rattle.runs.specs.Parts.{Lasting, Ordered, OverlapFound, lowest_in, meets};

use super::RunList;

impl RunList<'_> {
    // Whether the run at t in the order by image, with its image up to `end`, shares a place with one before it, whose
    // images end at `reached` at the latest, or with the next one.
    fn meets_another(self, order: &[u32], t: usize, reached: u64, end: u64) -> bool
        requires { (t < length self.starts.now) × Ordered (runs_in self) order.now }
        ensures { result ≡ meets (runs_in self.entry) t reached end }
    {
        let x = order[t] as usize;
        if u64::from(self.images[x]) < reached {
            return true;
        }
        if self.starts.len() <= t + 1 {
            return false;
        }
        let y = order[t + 1] as usize;
        u64::from(self.images[y]) < end
    }

    // The lowest run that test 6 refuses. The images that end latest so far, and the next image, tell all there is to know of
    // the others.
    fn lowest_overlap(self, order: &[u32]) -> Option<usize>
        requires { Lasting self.n (runs_in self) × Ordered (runs_in self) order.now }
        ensures { result ≡ lowest_in (overlaps self.entry.n) (runs_in self.entry) }
    {
        let mut lowest = self.starts.len();
        let mut reached: u64 = 0;
        for t in 0..self.starts.len() {
            let x = order[t] as usize;
            let end = self.image_end(x);
            if self.meets_another(order, t, reached, end) {
                lowest = lowest.min(x);
            }
            reached = reached.max(end);
        }
        (lowest < self.starts.len()).then_some(lowest)
    }

    // The same, with the order put into the first entries of `order`. `spare` is room to work in.
    pub(crate) fn first_overlap(self, order: &mut [u32], spare: &mut [u32]) -> Option<usize>
        requires { Lasting self.n (runs_in self) × (length self.starts.now < 4294967296)
            × (length self.starts.now ≤ length order.old) × (length self.starts.now ≤ length spare.old) }
        ensures { OverlapFound self.entry.n (runs_in self.entry) order.new result }
    {
        sorting::sort_by_key(order, spare, self.images);
        self.lowest_overlap(order)
    }
}
