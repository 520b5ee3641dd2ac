// The starts under an image as a C function on numbers and slices, for a host program in Rust or C: thin above the proved
// operation. docs/BOUNDARY.md says what a caller owes and how an answer is read.
// Each slice is a parameter of its own, since that is the C interface.
//
// A part of a slice has no C form, so it passes as an index and a count. The export has an archive of its own so that
// `weights::weight`, which it calls, has one caller here and one in that of the walks: with two the compiler makes it a
// function, and a weight takes longer.

#![tactic(auto)]

ghost use Rattle.std.specs.Prelude.{◌≡◌};
ghost use Rattle.outcomes.specs.Refusal.{says};
ghost use Rattle.tables.specs.Tables.{tables};
ghost use Rattle.weights.specs.Under.{under_of};
ghost use Rattle.export_under.specs.Answers.{under_answer};

use outcomes::Refusal;
use tables::MoveTable;
use weights::Stretch;

// The answer: the starts are so many entries of the table of starts, from the first on. Its place is 0 where it is done.
#[repr(C)]
#[derive(Clone, Copy)]
pub struct UnderAnswer {
    pub number: u32,
    pub place: u32,
    pub first: u32,
    pub count: u32,
}

impl From<Result<Stretch, Refusal>> for UnderAnswer {
    ghost from_gives = { λ answer r. r ≡ under_answer (says answer) };

    fn from(answer: Result<Stretch, Refusal>) -> UnderAnswer {
        match answer {
            Ok(stretch) => UnderAnswer {
                number: 0,
                place: 0,
                first: stretch.first,
                count: stretch.count,
            },
            Err(refusal) => UnderAnswer {
                number: refusal.number(),
                place: refusal.place(),
                first: 0,
                count: 0,
            },
        }
    }
}

// Where the starts under an interval's image stand in the table of starts, and how many they are.
#[unsafe(no_mangle)]
pub extern "C" fn zibewoka_starts_under(
    n: u32,
    starts: &[u32],
    images: &[u32],
    holders: &[u32],
    lengths: &[u32],
    interval: u32,
) -> UnderAnswer
    ensures { result ≡ under_answer (under_of n (tables starts.now images.now holders.now lengths.now) interval) }
{
    let table = MoveTable {
        n,
        starts,
        images,
        holders,
        lengths,
    };
    UnderAnswer::from(weights::under(table, interval))
}
