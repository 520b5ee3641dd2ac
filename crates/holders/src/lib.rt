// The holders of a legal list: for each image the run that has it.
//
// A search along all starts for each image would be a quarter of balancing. So the places are divided into as many buckets as there
// are runs, about equally long, and the last run that starts in a bucket or before it is noted for each. The holder of an image is
// mostly the one of its bucket or one of the few before it. Where it is not, all starts are searched.
// What is noted is promised to be high enough (specs/Buckets). That it is not too high is a matter of time alone.

#![tactic(auto)]

mod buckets;

ghost use Rattle.std.specs.Prelude.{◌≡◌, map, ◌+◌, ◌≤◌, ◌<◌, length};
ghost use Rattle.order.specs.Lists.{count_below};
ghost use Rattle.outcomes.specs.Outcome.{over};
ghost use Rattle.runs.specs.Legal.{Legal};
ghost use Rattle.runs.specs.Runs.{runs_in, run_at};
ghost use Rattle.holders.specs.Buckets.{Tops};
ghost use Rattle.holders.specs.Parts.{NotBelow};

use runs::RunList;

// The run before `top` where that one starts above `p`, else `top`. It subtracts what it compares and does not jump, since a
// processor could not foresee where to.
fn lower(starts: &[u32], p: u32, top: usize) -> usize
    requires { NotBelow starts.now p top }
    ensures { NotBelow starts.now p result }
{
    top - usize::from(p < starts[top])
}

// The run that has place `p`, which is not above `top`.
#[tactic(auto, using(crate::proofs::Holding::not_below_found))]
fn holder_up_to(starts: &[u32], p: u32, top: usize) -> usize
    requires { NotBelow starts.now p top × (p < 4294967295) }
    ensures { result + 1 ≡ count_below (p + 1) starts.now }
{
    let first = lower(starts, p, top);
    let second = lower(starts, p, first);
    let third = lower(starts, p, second);
    if starts[third] <= p {
        return third;
    }
    searching::count_below(starts, p + 1) - 1
}

// Writes the holders with the buckets noted in `tops`.
fn write_by_tops(list: RunList<'_>, scale: u64, tops: &[u32], to: &mut [u32])
    requires { Legal list.n (runs_in list) × Tops list.n scale list.starts.now tops.now
        × (length list.starts.now ≤ length to.old) }
    ensures { to.new ≡ over
        (map (run_at list.entry.n (runs_in list.entry)) list.entry.images.now)
        to.old }
{
    // No `zip` with `to`: tried at sorting's `gather`, and the proof didn't close, since nothing says what such a loop leaves in `to`.
    for (x, p) in list.images.iter().enumerate() {
        let top = tops[buckets::bucket_of(scale, *p)];
        to[x] = holder_up_to(list.starts, *p, top as usize) as u32;
    }
}

// Writes the holder of each image. `room` is to work in, and may hold any numbers afterwards. Public for our own crates.
pub fn write_holders(list: RunList<'_>, to: &mut [u32], room: &mut [u32])
    requires { Legal list.n (runs_in list) × (length list.starts.now ≤ length to.old)
        × (length room.old ≡ length list.starts.now) }
    ensures { to.new ≡ over
        (map (run_at list.entry.n (runs_in list.entry)) list.entry.images.now)
        to.old }
{
    let scale = buckets::note_tops(list, room);
    write_by_tops(list, scale, room, to);
}
