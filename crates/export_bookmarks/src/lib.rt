// A bookmark's move as a C function on numbers, slices and a lent bookmark, for a host program in Rust or C: thin above the proved
// operation. docs/BOUNDARY.md says what a caller owes and how an answer is read.
// Each slice is a parameter of its own, since that is the C interface.

#![tactic(auto)]

ghost use Rattle.std.specs.Prelude.{◌≡◌};
ghost use Rattle.outcomes.specs.Refusal.{says};
ghost use Rattle.tables.specs.Tables.{tables};
ghost use Rattle.export_bookmarks.specs.Answers.{advance_answer, AdvancesHost};

use bookmarks::Bookmark;
use outcomes::Refusal;
use tables::MoveTable;
use walks::Step;

// The answer: how many starts the move itself read. The bookmark tells the place, the interval and the distance, so that the
// answer's own place is 0 where it is done.
#[repr(C)]
#[derive(Clone, Copy)]
pub struct AdvanceAnswer {
    pub number: u32,
    pub place: u32,
    pub count: u64,
}

impl From<Result<Step, Refusal>> for AdvanceAnswer {
    ghost from_gives = { λ moved r. r ≡ advance_answer (says moved) };

    fn from(moved: Result<Step, Refusal>) -> AdvanceAnswer {
        match moved {
            Ok(step) => AdvanceAnswer {
                number: 0,
                place: 0,
                count: step.count,
            },
            Err(refusal) => AdvanceAnswer {
                number: refusal.number(),
                place: refusal.place(),
                count: 0,
            },
        }
    }
}

// One move of a bookmark that its owner lends.
#[unsafe(no_mangle)]
pub extern "C" fn zibewoka_advance(
    n: u32,
    starts: &[u32],
    images: &[u32],
    holders: &[u32],
    lengths: &[u32],
    bookmark: &mut Bookmark,
) -> AdvanceAnswer
    ensures { AdvancesHost n (tables starts.now images.now holders.now lengths.now) bookmark.old result bookmark.new }
{
    let table = MoveTable {
        n,
        starts,
        images,
        holders,
        lengths,
    };
    AdvanceAnswer::from(bookmarks::advance(table, bookmark))
}
