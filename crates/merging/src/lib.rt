// A list's starts and the cuts made in it, as one rising sequence: marks along it.
//
// Both methods have a `requires` and are for our own crates: starts and cuts rise, and the mark is one of theirs.

#![tactic(auto)]

ghost use Rattle.std.specs.Prelude.{◌≡◌, ◌+◌, get_or};
ghost use Rattle.merging.specs.Merged.{merged, Starts};
ghost use Rattle.merging.specs.Marks.{At, Follows};

use order::entry_or;

// A list's starts and the cuts made in it, which are looked at as one rising sequence that ends at n.
#[derive(Clone, Copy)]
pub struct Entries<'a> {
    pub n: u32,
    pub starts: &'a [u32],
    pub cuts: &'a [u32],
}

// A mark in the list's starts and the cuts, merged: how many of each come before it.
#[derive(Clone, Copy)]
pub struct Mark {
    pub starts: usize,
    pub cuts: usize,
}

// An entry, and the mark after it.
#[derive(Clone, Copy)]
pub struct Stepped {
    pub entry: u32,
    pub mark: Mark,
}

impl Entries<'_> {
    // The entry after the mark, or `n`.
    #[tactic(auto, using(crate::proofs::Merged::marks))]
    pub fn entry_at(self, mark: Mark) -> u32
        requires { Starts self.n self.starts.now self.cuts.now
            × At self.n self.starts.now self.cuts.now mark (mark.starts + mark.cuts) }
        ensures { result ≡ get_or (merged self.entry.starts.now self.entry.cuts.now) (mark.starts + mark.cuts) self.entry.n }
    {
        let s = entry_or(self.starts, mark.starts, self.n);
        let u = entry_or(self.cuts, mark.cuts, self.n);
        s.min(u)
    }

    // That entry, and the mark after it where there is one: both at once, since each asks which of the two comes first.
    #[tactic(auto, using(crate::proofs::Merged::marks))]
    pub fn step(self, mark: Mark) -> Stepped
        requires { Starts self.n self.starts.now self.cuts.now
            × At self.n self.starts.now self.cuts.now mark (mark.starts + mark.cuts) }
        ensures { Follows self.entry.n self.entry.starts.now self.entry.cuts.now mark result }
    {
        let s = entry_or(self.starts, mark.starts, self.n);
        let u = entry_or(self.cuts, mark.cuts, self.n);
        if u < s {
            return Stepped {
                entry: u,
                mark: Mark {
                    cuts: mark.cuts + 1,
                    ..mark
                },
            };
        }
        Stepped {
            entry: s,
            mark: Mark {
                starts: mark.starts + 1,
                ..mark
            },
        }
    }
}
