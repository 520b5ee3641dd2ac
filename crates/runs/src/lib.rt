// Run lists: disjoint interval sequences (Nishimoto and Tabei), and their check in lent room.
//
// A run list is n with two slices of one length, starts and images (`RunList`): run i sends the places from its start up to its
// end, the next start or n, to as many places from its image on. The definitions that the contracts cite are in
// specs/, one idea a file.

#![tactic(auto)]

mod conditions;
mod sweep;

ghost use Rattle.runs.specs.Runs.{runs_in};
ghost use Rattle.runs.specs.Parts.{HoldsRuns, OrderChecked};

use outcomes::Refusal;

// A run list that a caller lends: the starts and the images of its runs, any numbers, and n beside them. They are two slices and not
// one of pairs, as the C interface passes them.
#[derive(Clone, Copy)]
pub struct RunList<'a> {
    pub n: u32,
    pub starts: &'a [u32],
    pub images: &'a [u32],
}

// Two tables that a caller lends for the starts and the images of the runs of a list that is to be written.
#[derive(Drop)]
pub struct RunListMut<'a> {
    pub starts: &'a mut [u32],
    pub images: &'a mut [u32],
}

// The most runs that a list may have, as a limit and as a table's size.
pub const MOST_RUNS: u32 = 16384;

pub const MAX_RUNS: usize = MOST_RUNS as usize;

// Sizes of smaller tables, for lists of at most so many runs: clearing larger ones would take longer than their check. The first two
// are not yet large for a frame.
pub const FEW_RUNS: usize = 64;

pub const MORE_RUNS: usize = 256;

pub const SOME_RUNS: usize = 1024;

pub const MANY_RUNS: usize = 4096;

// Tests 1 to 6, of a list that may have `most` runs. `order` is room for the order of the runs by image, and holds it if
// the list is accepted; `spare` is room to work in. Public for our own crates, which lend that room.
pub fn check_order(
    list: RunList<'_>,
    most: u32,
    order: &mut [u32],
    spare: &mut [u32],
) -> Result<(), Refusal>
    requires { HoldsRuns most list.starts.now order.old × HoldsRuns most list.starts.now spare.old }
    ensures { OrderChecked most list.entry.n (runs_in list.entry) order.new result }
{
    if list.is_unmatched() {
        return Err(Refusal::ListShape);
    }
    if (most as usize) < list.starts.len() {
        return Err(Refusal::TooManyRuns);
    }
    if list.starts[0] != 0 {
        return Err(Refusal::FirstStart);
    }
    if let Some(x) = list.first_unordered() {
        return Err(Refusal::StartOrder(x as u32));
    }
    if let Some(x) = list.first_out_of_range() {
        return Err(Refusal::ImageRange(x as u32));
    }
    if let Some(x) = list.first_overlap(order, spare) {
        return Err(Refusal::ImageOverlap(x as u32));
    }
    Ok(())
}
