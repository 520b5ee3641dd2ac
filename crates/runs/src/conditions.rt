// Tests 1, 4 and 5 of a run list, each by itself.
ghost use Rattle.std.specs.Prelude.{◌≡◌, ◌<◌, length};
ghost use Rattle.outcomes.specs.Search.{lowest_below};
ghost use Rattle.runs.specs.Runs.{runs_in, image_end};
ghost use Rattle.runs.specs.Check.{unmatched, unordered, out_of_range};
ghost use Rattle.runs.specs.Parts.{Lasting, lowest_in};

use super::RunList;
use order::entry_or;

impl RunList<'_> {
    // Where the image of run x ends.
    pub(crate) fn image_end(self, x: usize) -> u64
        requires { (x < length self.starts.now) × Lasting self.n (runs_in self) }
        ensures { result ≡ image_end self.entry.n (runs_in self.entry) x }
    {
        let end = entry_or(self.starts, x + 1, self.n);
        u64::from(self.images[x]) + u64::from(end - self.starts[x])
    }

    // Test 1.
    #[tactic(auto, unfolding(crate::specs::Check::unmatched))]
    pub(crate) fn is_unmatched(self) -> bool
        ensures { result ≡ unmatched self.entry.n (runs_in self.entry) }
    {
        self.n == 0 || self.starts.is_empty() || self.starts.len() != self.images.len()
    }

    // Test 4 of run x.
    #[tactic(auto, unfolding(crate::specs::Check::unordered))]
    fn is_unordered(self, x: usize) -> bool
        requires { x < length self.starts.now }
        ensures { result ≡ unordered self.entry.n self.entry.starts.now x }
    {
        let start = self.starts[x];
        self.n <= start || (0 < x && start <= self.starts[x - 1])
    }

    // The lowest run that test 4 refuses.
    pub(crate) fn first_unordered(self) -> Option<usize>
        ensures { result ≡ lowest_below (unordered self.entry.n self.entry.starts.now) (length self.entry.starts.now) }
    {
        for x in 0..self.starts.len() {
            if self.is_unordered(x) {
                return Some(x);
            }
        }
        None
    }

    // The lowest run that test 5 refuses.
    pub(crate) fn first_out_of_range(self) -> Option<usize>
        requires { Lasting self.n (runs_in self) }
        ensures { result ≡ lowest_in (out_of_range self.entry.n) (runs_in self.entry) }
    {
        for x in 0..self.starts.len() {
            if u64::from(self.n) < self.image_end(x) {
                return Some(x);
            }
        }
        None
    }
}
