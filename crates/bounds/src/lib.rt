// Bounds: what a list's weights alone tell of degrees. At a low degree balancing is certain to make many cuts; where the list
// would then have more intervals than there are entries, nothing has to be cut to know it. At a high one it may make none.
//
// How many cuts are certain stands in the crate cuts (specs/Certain), and what `first_degree` asks and promises in
// specs/Bound. It is for our own crates, which have had the list checked.

#![tactic(auto)]

ghost use Rattle.std.specs.Prelude.{◌≡◌, ◌≤◌, length};
ghost use Rattle.order.specs.Order.{order_of};
ghost use Rattle.runs.specs.Parts.{Ordered};
ghost use Rattle.runs.specs.Runs.{runs_in};
ghost use Rattle.bounds.specs.Bound.{Boundable, Opens};
ghost use Rattle.bounds.specs.Parts.{PerDegree, certain_of, image_from, Addable, Added, Summable, FirstWithin};

use runs::RunList;

// A degree before which all are ruled out, and one from there on at which the list is known not to be cut; 65 for either, if there
// is none.
// No Option stands for none, since 65 ends the range of degrees that the search counts through, and an Option would be turned back into it.
#[derive(Clone, Copy)]
pub struct First {
    pub degree: u32,
    pub whole: u32,
}

// How many degrees there are, from 2 to 64.
const DEGREES: usize = outcomes::MOST_DEGREE as usize - 1;

// Adds to each total the cuts that a run of weight `w` is certain to get at its degree. At a degree above half the weight
// there are none, so that most runs cost no division, and all runs together at most one for every two starts.
fn add_cuts(totals: &mut [u32], w: u32)
    requires { Addable totals.old w }
    ensures { Added w totals.old totals.new }
{
    for d in 2..=outcomes::MOST_DEGREE.min(w / 2) {
        totals[(d - 2) as usize] += w / d - 1;
    }
}

// Where the image at `j` in the order by image begins, or n after the last.
fn image_from(list: RunList<'_>, order: &[u32], j: usize) -> u32
    requires { Ordered (runs_in list) order.now }
    ensures { result ≡ image_from list.entry.n (runs_in list.entry) j }
{
    if j < list.starts.len() {
        list.images[order[j] as usize]
    } else {
        list.n
    }
}

// Adds the certain cuts of all runs. The images in rising order leave no place out, so that an image ends where the next
// begins, and the starts under it follow those under the one before. They are mostly few, as `near_end` has it.
fn add_all_cuts(list: RunList<'_>, order: &[u32], totals: &mut [u32])
    requires { Summable list.n (runs_in list) order.now totals.old }
    ensures { PerDegree (certain_of list.entry.n (runs_in list.entry)
        (order_of list.entry.images.now)) totals.new }
{
    let mut passed = 0;
    for j in 0..list.starts.len() {
        let end = image_from(list, order, j + 1);
        let to = order::near_end(list.starts, passed, end - 1);
        add_cuts(totals, (to - passed) as u32);
        passed = to;
    }
}

// The first degree from `low` on whose total is not above `spare`, or 65.
fn first_within(totals: &[u32], low: u32, spare: usize) -> u32
    requires { (63 ≤ length totals.now) × (2 ≤ low) × (low ≤ 64) }
    ensures { FirstWithin totals.now low spare result }
{
    for d in low..=outcomes::MOST_DEGREE {
        if totals[(d - 2) as usize] as usize <= spare {
            return d;
        }
    }
    outcomes::MOST_DEGREE + 1
}

// The first degree from `low` on at which the cuts that are certain, found in one pass for all degrees, leave the balanced
// list within `entries`, or 65: at those before it the list has more. And the first at which no cut is certain, or 65: there no
// interval is heavy, so that none is cut. The first 63 entries of `room` are worked in.
pub fn first_degree(
    list: RunList<'_>,
    order: &[u32],
    room: &mut [u32],
    low: u32,
    entries: usize,
) -> First
    requires { Boundable list.n (runs_in list) order.now room.old low }
    ensures { Opens list.entry.n (runs_in list.entry) low entries result }
{
    let k = list.starts.len();
    if entries < k {
        return First {
            degree: outcomes::MOST_DEGREE + 1,
            whole: outcomes::MOST_DEGREE + 1,
        };
    }
    order::clear(room, DEGREES);
    add_all_cuts(list, order, room);
    First {
        degree: first_within(room, low, entries - k),
        whole: first_within(room, low, 0),
    }
}
