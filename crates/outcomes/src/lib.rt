// What a call comes to: it is worked on, or refused with one of the paper's numbers and a place.
//
// An operation is defined as a list of tests and a result (specs/Outcome); its answer is a `Result` with a refusal as its error, and
// `says` (specs/Refusal) gives it in the paper's numbers.

#![tactic(auto)]

ghost use Rattle.std.specs.Prelude.{◌≡◌, not};
ghost use Rattle.outcomes.specs.Degree.{no_degree};
ghost use Rattle.outcomes.specs.Refusal.{number_of, place_of};

// Why a call is refused. specs/Refusal.antt gives the paper's number and place of each.
#[derive(Clone, Copy)]
pub enum Refusal {
    ListShape,
    TooManyRuns,
    FirstStart,
    StartOrder(u32),
    ImageRange(u32),
    ImageOverlap(u32),
    Degree(u32),
    ShortTable(u32),
    TableShape,
    IntervalIndex(u32),
    PlaceRange(u32),
    BrokenInterval(u32),
    CounterLimit,
    NoPreimage(u32),
    FileHeader(u32),
    TooManyPlaces(u32),
    LastPermutation,
    NoDegreeFits(u32),
}

impl Refusal {
    // The paper's number of a refusal.
    pub fn number(self) -> u32
        ensures { result ≡ number_of self }
    {
        match self {
            Refusal::ListShape => 1,
            Refusal::TooManyRuns => 2,
            Refusal::FirstStart => 3,
            Refusal::StartOrder(_) => 4,
            Refusal::ImageRange(_) => 5,
            Refusal::ImageOverlap(_) => 6,
            Refusal::Degree(_) => 7,
            Refusal::ShortTable(_) => 8,
            Refusal::TableShape => 9,
            Refusal::IntervalIndex(_) => 10,
            Refusal::PlaceRange(_) => 11,
            Refusal::BrokenInterval(_) => 12,
            Refusal::CounterLimit => 13,
            Refusal::NoPreimage(_) => 14,
            Refusal::FileHeader(_) => 15,
            Refusal::TooManyPlaces(_) => 17,
            Refusal::LastPermutation => 18,
            Refusal::NoDegreeFits(_) => 19,
        }
    }

    // The place that is given with it.
    pub fn place(self) -> u32
        ensures { result ≡ place_of self }
    {
        match self {
            Refusal::ListShape => 0,
            Refusal::TooManyRuns => 0,
            Refusal::FirstStart => 0,
            Refusal::StartOrder(x) => x,
            Refusal::ImageRange(x) => x,
            Refusal::ImageOverlap(x) => x,
            Refusal::Degree(d) => d,
            Refusal::ShortTable(b) => b,
            Refusal::TableShape => 0,
            Refusal::IntervalIndex(x) => x,
            Refusal::PlaceRange(i) => i,
            Refusal::BrokenInterval(x) => x,
            Refusal::CounterLimit => 0,
            Refusal::NoPreimage(j) => j,
            Refusal::FileHeader(b) => b,
            Refusal::TooManyPlaces(n) => n,
            Refusal::LastPermutation => 0,
            Refusal::NoDegreeFits(e) => e,
        }
    }
}

// The highest degree.
pub const MOST_DEGREE: u32 = 64;

// Whether test 7 lets the degree pass, which balancing and files share: it is about a number alone.
pub fn is_degree(d: u32) -> bool
    ensures { result ≡ not (no_degree d) }
{
    (2..=MOST_DEGREE).contains(&d)
}
