// Cuts: where a legal list is cut so that no interval is heavy, found by a sweep along the images (Nishimoto and Tabei's
// fast balancing, with marks carried along for its trees, and binary searches behind the front). The list itself is read where it
// lies.
//
// What balancing is stands in specs/Balance, and what `find_cuts` asks and promises in specs/Cuts.
// It is for our own crates, which have had the list checked.

#![tactic(auto)]

mod fronts;
mod marks;
mod pieces;
mod sweep;

ghost use Rattle.runs.specs.Runs.{runs_in};
ghost use Rattle.std.specs.Prelude.{◌≡◌};
ghost use Rattle.cuts.specs.Cuts.{Cuttable, BalancingCuts};
ghost use Rattle.cuts.specs.Parts.{entries_in};

use merging::{Entries, Mark};
use runs::RunList;

// A list whose runs stand in `order` in rising order of image, with their images in that order in `ranked`, and cuts in it. That this
// is so stays a clause (`InOrder`): as a ghost field it was tried, and no proof closed that two proofs of a strict order are one.
#[derive(Clone, Copy)]
struct CutRuns<'a> {
    list: RunList<'a>,
    order: &'a [u32],
    ranked: &'a [u32],
    cuts: &'a [u32],
}

impl<'a> CutRuns<'a> {
    fn entries(self) -> Entries<'a>
        ensures { result ≡ entries_in self.entry }
    {
        Entries {
            n: self.list.n,
            starts: self.list.starts,
            cuts: self.cuts,
        }
    }
}

// A place, and the run that has it.
#[derive(Clone, Copy)]
struct Origin {
    run: usize,
    place: u32,
}

// A piece of a run after cuts: where it starts, and where its image ends.
#[derive(Clone, Copy)]
struct Piece {
    start: u32,
    to: u32,
}

// Where an image begins, and the piece that it is of.
#[derive(Clone, Copy)]
struct Spot {
    p: u32,
    piece: Piece,
}

// A piece, and the mark before its image.
#[derive(Clone, Copy)]
struct Here {
    piece: Piece,
    mark: Mark,
}

// What two looks along the starts under a piece's image tell: whether it is heavy, and how far it is passed. That is where it is
// to be cut if it is heavy, and else the end of its image. The mark stands before that place.
// A flag tells the two cases apart, since both have the same fields.
#[derive(Clone, Copy)]
struct Looked {
    heavy: bool,
    to: u32,
    mark: Mark,
}

// The front of the sweep: the place that it has come to, the rank of the run whose image has it, and the mark before it.
#[derive(Clone, Copy)]
struct Front {
    q: u32,
    rank: usize,
    mark: Mark,
}

// Where the sweep stands: at `p`, which is its front or lies behind it. Behind it `piece` is the piece at `p`.
#[derive(Clone, Copy)]
struct Stand {
    p: u32,
    piece: Piece,
    front: Front,
}

// The cuts that balance the list, in rising order in `working`. Answers how many there are. `order` begins with the runs
// in rising order of image, and `ranked` is room for their images in that order.
pub fn find_cuts(
    list: RunList<'_>,
    order: &[u32],
    ranked: &mut [u32],
    d: u32,
    working: &mut [u32],
) -> usize
    requires { Cuttable list.n (runs_in list) order.now ranked.old d working.old }
    ensures { BalancingCuts d list.entry.n (runs_in list.entry) working.old working.new result }
{
    sorting::gather(list.images, order, ranked);
    let k = list.images.len();
    sweep::sweep(list, &order[..k], &ranked[..k], d as usize, working)
}
