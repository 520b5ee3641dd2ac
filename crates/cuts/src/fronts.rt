// The front of the sweep, moved on.
ghost use Rattle.std.specs.Prelude.{◌≡◌, ◌≤◌, ◌<◌};
ghost use Rattle.runs.specs.Runs.{runs_in};
ghost use Rattle.cuts.specs.Parts.{InOrder, after_cuts, Edge, FrontAt, AtFront, Passes, PassesLight, Counts};

use super::{CutRuns, Front, Looked, Piece, Stand, marks};
use merging::Mark;
use order::entry_or;

// The front where the sweep begins.
pub(crate) fn first() -> Front
    ensures { result ≡ record { q = 0; rank = 0; mark = record { starts = 0; cuts = 0 } } }
{
    Front {
        q: 0,
        rank: 0,
        mark: Mark { starts: 0, cuts: 0 },
    }
}

// The sweep at its front, where no piece is known yet.
pub(crate) fn at_front(front: Front) -> Stand
    ensures { AtFront front result }
{
    Stand {
        p: front.q,
        piece: Piece { start: 0, to: 0 },
        front,
    }
}

// The front after a look at the piece where the sweep stands. It moves on if that was the piece at the front: to where this is to be
// cut or, if it is light, to the next run.
pub(crate) fn pass(at: Stand, looked: Looked) -> Front
    requires { at.front.rank < 9223372036854775808 }
    ensures { Passes at.front at.p looked result }
{
    let front = at.front;
    if at.p < front.q {
        return front;
    }
    if looked.heavy {
        return Front {
            q: looked.to,
            rank: front.rank,
            mark: looked.mark,
        };
    }
    Front {
        q: looked.to,
        rank: front.rank + 1,
        mark: looked.mark,
    }
}

// The front with the cut at `u` counted.
pub(crate) fn count_cut(front: Front, u: u32) -> Front
    requires { front.mark.cuts < 9223372036854775808 }
    ensures { Counts front u result }
{
    if front.q <= u {
        return front;
    }
    Front {
        q: front.q,
        rank: front.rank,
        mark: Mark {
            starts: front.mark.starts,
            cuts: front.mark.cuts + 1,
        },
    }
}

impl CutRuns<'_> {
    // The front moved on past light pieces: to the first one that is heavy, or to n. It is a loop of its own, since the sweep's keeps
    // more at hand than a processor has registers. It counts no index.
    pub(crate) fn pass_light(self, d: usize, front: Front) -> Front
        requires { InOrder self × FrontAt self.list.n (runs_in self.list) self.ranked.now self.cuts.now front
            × Edge self.list.n (after_cuts self) front.q
            × (front.q ≤ self.list.n) × (0 < d) × (d ≤ 64) }
        ensures { PassesLight d self.entry.list.n (runs_in self.entry.list)
            self.entry.ranked.now self.entry.cuts.now front result }
    {
        let entries = self.entries();
        let mut at = front;
        while at.q < self.list.n {
            let to = entry_or(self.ranked, at.rank + 1, self.list.n);
            let looked = marks::look(entries, at.mark, d, to);
            if looked.heavy {
                return at;
            }
            at = Front {
                q: looked.to,
                rank: at.rank + 1,
                mark: looked.mark,
            };
        }
        at
    }
}
