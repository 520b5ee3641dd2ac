// The pieces that cuts make of a list's runs: at the front of the sweep known, behind it found by binary search.
ghost use Rattle.std.specs.Prelude.{◌≡◌, ◌+◌, ◌-◌, ◌≤◌, ◌<◌, length, get_or};
ghost use Rattle.order.specs.Lists.{count_below};
ghost use Rattle.runs.specs.Runs.{runs_in};
ghost use Rattle.cuts.specs.Ranks.{Ranking, SentTo};
ghost use Rattle.cuts.specs.Parts.{InOrder, after_cuts, Begins, PieceAt, HereAt, FrontAt, Higher, Around, BehindAt, AfterCut};

use super::{CutRuns, Front, Here, Origin, Piece, Spot, Stand, fronts, marks};
use merging::Mark;
use order::entry_or;

// The last run in `order` with an image not above `q`; `ranked` has the images in that order.
fn run_at_rank(order: &[u32], ranked: &[u32], q: u32) -> usize
    requires { Ranking order.now ranked.now q }
    ensures { result ≡ get_or order.now (count_below (q + 1) ranked.now - 1) 0 }
{
    order[searching::count_below(ranked, q + 1) - 1] as usize
}

// The last of the first `count` cuts, or `start` where that is higher.
fn later_start(start: u32, cuts: &[u32], count: usize) -> u32
    requires { count ≤ length cuts.now }
    ensures { Higher start cuts.now count result }
{
    if count == 0 {
        start
    } else {
        start.max(cuts[count - 1])
    }
}

impl CutRuns<'_> {
    // The place that the list's function sends to `q`, and its run.
    fn origin_of(self, q: u32) -> Origin
        requires { InOrder self × (q < self.list.n) }
        ensures { SentTo self.entry.list.n (runs_in self.entry.list) q result }
    {
        let x = run_at_rank(self.order, self.ranked, q);
        Origin {
            run: x,
            place: self.list.starts[x] + (q - self.list.images[x]),
        }
    }

    // Where the image begins in which `u` lies, and the piece that it is of.
    fn piece_around(self, u: u32) -> Spot
        requires { InOrder self × (u < self.list.n) }
        ensures { Around self.entry.list.n (after_cuts self.entry) u result }
    {
        let origin = self.origin_of(u);
        let count = searching::count_below(self.cuts, origin.place + 1);
        let start = later_start(self.list.starts[origin.run], self.cuts, count);
        let after = Mark {
            starts: origin.run + 1,
            cuts: count,
        };
        let end = self.entries().entry_at(after);
        let p = u - (origin.place - start);
        Spot {
            p,
            piece: Piece {
                start,
                to: p + (end - start),
            },
        }
    }

    // The piece at the front: no cut lies ahead, so that it ends with its run.
    fn front_piece(self, front: Front) -> Piece
        requires { InOrder self × FrontAt self.list.n (runs_in self.list) self.ranked.now self.cuts.now front
            × Begins (after_cuts self) front.q }
        ensures { PieceAt self.entry.list.n (after_cuts self.entry) front.q result }
    {
        let rank = front.rank;
        let x = self.order[rank] as usize;
        Piece {
            start: self.list.starts[x] + (front.q - self.ranked[rank]),
            to: entry_or(self.ranked, rank + 1, self.list.n),
        }
    }

    // The piece where the sweep stands, and the mark before its image: known at the front, and behind it the mark is searched for.
    pub(crate) fn here(self, at: Stand) -> Here
        requires { InOrder self × FrontAt self.list.n (runs_in self.list) self.ranked.now self.cuts.now at.front
            × BehindAt self.list.n (after_cuts self) at }
        ensures { HereAt self.entry.list.n (runs_in self.entry.list) self.entry.cuts.now at.p result }
    {
        if at.p == at.front.q {
            return Here {
                piece: self.front_piece(at.front),
                mark: at.front.mark,
            };
        }
        Here {
            piece: at.piece,
            mark: marks::mark_at(self.entries(), at.p),
        }
    }

    // Where to go on after a cut that added `u`: at the front, or where the image behind it begins in which `u` lies. There a piece
    // may be heavy now.
    pub(crate) fn after_cut(self, front: Front, u: u32) -> Stand
        requires { InOrder self × (u < self.list.n) × (front.mark.cuts < 9223372036854775808) }
        ensures { AfterCut self.entry.list.n (after_cuts self.entry) front u result }
    {
        let counted = fronts::count_cut(front, u);
        if counted.q <= u {
            return fronts::at_front(counted);
        }
        let spot = self.piece_around(u);
        Stand {
            p: spot.p,
            piece: spot.piece,
            front: counted,
        }
    }
}
