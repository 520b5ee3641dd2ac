// The walks through a move table as C functions on numbers and slices, for a host program in Rust or C: thin above the proved
// operations. docs/BOUNDARY.md says what a caller owes and how an answer is read.
// Each slice is a parameter of its own, since that is the C interface.

#![tactic(auto)]

mod answers;

ghost use Rattle.std.specs.Prelude.{◌≡◌};
ghost use Rattle.tables.specs.Tables.{tables};
ghost use Rattle.walks.specs.Move.{find_of, move_of, moves_of};
ghost use Rattle.preimages.specs.Inverse.{inverse_of};
ghost use Rattle.weights.specs.Under.{weight_of};
ghost use Rattle.export_walks.specs.Answers.{find_answer, move_answer, moves_answer, inverse_answer, weight_answer};

use tables::MoveTable;

// The answer of find and inverse. Find's place is the one asked about, inverse's the one that it was reached from.
#[repr(C)]
#[derive(Clone, Copy)]
pub struct IntervalAnswer {
    pub number: u32,
    pub place: u32,
    pub interval: u32,
}

// The answer of weight; its place is 0 where it is done.
#[repr(C)]
#[derive(Clone, Copy)]
pub struct WeightAnswer {
    pub number: u32,
    pub place: u32,
    pub weight: u32,
}

// The answer of a move: the count is of the starts read.
#[repr(C)]
#[derive(Clone, Copy)]
pub struct MoveAnswer {
    pub number: u32,
    pub place: u32,
    pub interval: u32,
    pub distance: u32,
    pub count: u32,
}

// The answer of a repeated move: the count is of the starts that all moves read.
#[repr(C)]
#[derive(Clone, Copy)]
pub struct MovesAnswer {
    pub number: u32,
    pub place: u32,
    pub interval: u32,
    pub distance: u32,
    pub count: u64,
}

// The interval that has a place.
#[unsafe(no_mangle)]
pub extern "C" fn zibewoka_find(
    n: u32,
    starts: &[u32],
    images: &[u32],
    holders: &[u32],
    lengths: &[u32],
    place: u32,
) -> IntervalAnswer
    ensures { result ≡ find_answer place (find_of n (tables starts.now images.now holders.now lengths.now) place) }
{
    let table = MoveTable {
        n,
        starts,
        images,
        holders,
        lengths,
    };
    answers::of_find(walks::find(table, place), place)
}

// One move from a place of an interval.
#[unsafe(no_mangle)]
pub extern "C" fn zibewoka_move(
    n: u32,
    starts: &[u32],
    images: &[u32],
    holders: &[u32],
    lengths: &[u32],
    interval: u32,
    place: u32,
) -> MoveAnswer
    ensures { result ≡ move_answer (move_of n (tables starts.now images.now holders.now lengths.now) interval place) }
{
    let table = MoveTable {
        n,
        starts,
        images,
        holders,
        lengths,
    };
    let wide = MovesAnswer::from(walks::move_query(table, interval, place));
    MoveAnswer {
        number: wide.number,
        place: wide.place,
        interval: wide.interval,
        distance: wide.distance,
        count: wide.count as u32,
    }
}

// m moves from a place of an interval, with the sum of their counts.
#[unsafe(no_mangle)]
pub extern "C" fn zibewoka_moves(
    n: u32,
    starts: &[u32],
    images: &[u32],
    holders: &[u32],
    lengths: &[u32],
    interval: u32,
    place: u32,
    m: u32,
) -> MovesAnswer
    ensures { result ≡ moves_answer (moves_of n (tables starts.now images.now holders.now lengths.now) m interval place) }
{
    let table = MoveTable {
        n,
        starts,
        images,
        holders,
        lengths,
    };
    MovesAnswer::from(walks::repeated_moves(table, interval, place, m))
}

// The place that a place is reached from, and its interval.
#[unsafe(no_mangle)]
pub extern "C" fn zibewoka_inverse(
    n: u32,
    starts: &[u32],
    images: &[u32],
    holders: &[u32],
    lengths: &[u32],
    place: u32,
) -> IntervalAnswer
    ensures { result ≡ inverse_answer (inverse_of n (tables starts.now images.now holders.now lengths.now) place) }
{
    let table = MoveTable {
        n,
        starts,
        images,
        holders,
        lengths,
    };
    IntervalAnswer::from(preimages::inverse(table, place))
}

// How many starts lie under an interval's image.
#[unsafe(no_mangle)]
pub extern "C" fn zibewoka_weight(
    n: u32,
    starts: &[u32],
    images: &[u32],
    holders: &[u32],
    lengths: &[u32],
    interval: u32,
) -> WeightAnswer
    ensures { result ≡ weight_answer (weight_of n (tables starts.now images.now holders.now lengths.now) interval) }
{
    let table = MoveTable {
        n,
        starts,
        images,
        holders,
        lengths,
    };
    WeightAnswer::from(weights::weight(table, interval))
}
