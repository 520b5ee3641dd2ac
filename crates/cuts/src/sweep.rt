// The cuts that balance a list.
ghost use Rattle.std.specs.Prelude.{◌≤◌, length};
ghost use Rattle.runs.specs.Runs.{runs_in};
ghost use Rattle.cuts.specs.Ranks.{Ranked};
ghost use Rattle.cuts.specs.Cuts.{BalancingCuts};

use super::{CutRuns, fronts, marks};
use runs::RunList;

// Cuts pieces until none is heavy, each time the heavy one with the lowest image: the cuts come to stand in
// `working`, in rising order. Answers how many there are. Before the front only the piece at `p` may be heavy, and a cut
// there can make one piece before it heavy again: the one under whose image the new start lies. A cut at the front takes it on to
// the second part. No cut lies ahead of the front, so that nothing is searched for there. The loop counts no index. The cuts are a part
// of the working table with their count beside it, since the C interface lends that table.
pub(crate) fn sweep(
    list: RunList<'_>,
    order: &[u32],
    ranked: &[u32],
    d: usize,
    working: &mut [u32],
) -> usize
    requires { Ranked list.n (runs_in list) order.now ranked.now × (2 ≤ d) × (d ≤ 64)
        × (length list.starts.now ≤ length working.old) }
    ensures { BalancingCuts d list.entry.n (runs_in list.entry) working.old working.new result }
{
    let mut count = 0;
    let mut at = fronts::at_front(fronts::first());
    while at.p < list.n {
        let cuts = &working[..count];
        let before = CutRuns {
            list,
            order,
            ranked,
            cuts,
        };
        let here = before.here(at);
        let looked = marks::look(before.entries(), here.mark, d, here.piece.to);
        let front = fronts::pass(at, looked);
        if looked.heavy {
            let u = here.piece.start + (looked.to - at.p);
            searching::insert(working, count, u);
            count += 1;
            let cuts = &working[..count];
            let after = CutRuns {
                list,
                order,
                ranked,
                cuts,
            };
            at = after.after_cut(front, u);
        } else {
            at = fronts::at_front(before.pass_light(d, front));
        }
    }
    count
}
