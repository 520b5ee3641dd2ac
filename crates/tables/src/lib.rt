// The move table of a run list (starts, images, holders, lengths), with any numbers in it, and the tests that operations on it
// share: all methods are for our own crates.

#![tactic(auto)]

mod measuring;

ghost use Rattle.std.specs.Prelude.{◌≡◌, ◌<◌, length};
ghost use Rattle.outcomes.specs.Search.{lowest_below};
ghost use Rattle.tables.specs.Tables.{links_in, tables_in, misshapen, wrong_length, unheld, broken};
ghost use Rattle.tables.specs.Parts.{Entered, Located};

// The most intervals that tables may have.
pub const MAX_INTERVALS: usize = 32768;

// A move table that a caller lends: its columns, any numbers, and n beside them. Each is a slice, as the C interface passes it.
#[derive(Clone, Copy)]
pub struct MoveTable<'a> {
    pub n: u32,
    pub starts: &'a [u32],
    pub images: &'a [u32],
    pub holders: &'a [u32],
    pub lengths: &'a [u32],
}

// Four tables that a caller lends for the columns of a move table that is to be written.
#[derive(Drop)]
pub struct MoveTableMut<'a> {
    pub starts: &'a mut [u32],
    pub images: &'a mut [u32],
    pub holders: &'a mut [u32],
    pub lengths: &'a mut [u32],
}

impl<'a> MoveTable<'a> {
    // Test 9.
    #[tactic(auto, unfolding(crate::specs::Tables::misshapen))]
    pub fn is_misshapen(self) -> bool
        ensures { result ≡ misshapen self.entry.n (tables_in self.entry) }
    {
        let size = self.starts.len();
        self.n == 0
            || size == 0
            || size != self.images.len()
            || size != self.holders.len()
            || size != self.lengths.len()
            || MAX_INTERVALS < size
    }

    // Test 12 of the length of interval x.
    pub fn is_wrong_length(self, x: usize) -> bool
        requires { (x < length self.starts.now) × (x < length self.lengths.now) }
        ensures { result ≡ wrong_length self.entry.n self.entry.starts.now self.entry.lengths.now x }
    {
        let end = order::entry_or(self.starts, x + 1, self.n);
        measuring::differs(self.starts[x], end, self.lengths[x])
    }

    // The lowest interval that this test applies to. A pass without a way out comes first, and only where it has seen a wrong
    // length a second one looks for it.
    pub fn first_wrong_length(self) -> Option<usize>
        requires { (0 < length self.starts.now) × (length self.lengths.now ≡ length self.starts.now) }
        ensures { result ≡ lowest_below (wrong_length self.entry.n self.entry.starts.now self.entry.lengths.now)
            (length self.entry.starts.now) }
    {
        if !measuring::is_any_wrong(self.n, self.starts, self.lengths) {
            return None;
        }
        for x in 0..self.starts.len() {
            if self.is_wrong_length(x) {
                return Some(x);
            }
        }
        None
    }

    // Whether interval x has no holder that can be: test 12 but for its length and what is reached.
    #[tactic(auto, unfolding(crate::specs::Tables::unheld))]
    pub fn is_unheld(self, x: u32) -> bool
        requires { Entered (links_in self) x }
        ensures { result ≡ unheld (links_in self.entry) x }
    {
        let at = x as usize;
        let h = self.holders[at] as usize;
        self.starts.len() <= h || self.images[at] < self.starts[h]
    }

    // Test 12 for a move from place i, which lies in interval x, but for the interval's length.
    #[tactic(auto, unfolding(crate::specs::Tables::broken))]
    pub fn is_broken(self, x: u32, i: u32) -> bool
        requires { Located self.n (links_in self) x i }
        ensures { result ≡ broken self.entry.n (links_in self.entry) x i }
    {
        let at = x as usize;
        self.is_unheld(x)
            || u64::from(self.n) <= u64::from(self.images[at]) + u64::from(i - self.starts[at])
    }
}
