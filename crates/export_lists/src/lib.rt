// Check and the inverse list as C functions on numbers and slices, for a host program in Rust or C: thin above the proved
// operations. docs/BOUNDARY.md says what a caller owes and how an answer is read.
// Each slice is a parameter of its own, since that is the C interface.

#![tactic(auto)]

ghost use Rattle.std.specs.Prelude.{◌≡◌};
ghost use Rattle.outcomes.specs.Refusal.{says};
ghost use Rattle.runs.specs.Runs.{runs};
ghost use Rattle.runs.specs.Check.{check_of};
ghost use Rattle.export_lists.specs.Answers.{list_answer};
ghost use Rattle.export_lists.specs.Lent.{InverseListAnswered};

use outcomes::Refusal;
use runs::{RunList, RunListMut};

// The answer of check and inverse list.
#[repr(C)]
#[derive(Clone, Copy)]
pub struct ListAnswer {
    pub number: u32,
    pub place: u32,
}

impl From<Result<(), Refusal>> for ListAnswer {
    ghost from_gives = { λ answer r. r ≡ list_answer (says answer) };

    fn from(answer: Result<(), Refusal>) -> ListAnswer {
        match answer {
            Ok(()) => ListAnswer {
                number: 0,
                place: 0,
            },
            Err(refusal) => ListAnswer {
                number: refusal.number(),
                place: refusal.place(),
            },
        }
    }
}

// Whether a list is legal and has at most 16,384 runs.
#[unsafe(no_mangle)]
pub extern "C" fn zibewoka_check(n: u32, starts: &[u32], images: &[u32]) -> ListAnswer
    ensures { result ≡ list_answer (check_of n (runs starts.now images.now)) }
{
    let list = RunList { n, starts, images };
    ListAnswer::from(lists::check(list))
}

// Writes the inverse list to two lent tables.
#[tactic(auto, unfolding(outcomes::specs::Outcome::map_done))]
#[unsafe(no_mangle)]
pub extern "C" fn zibewoka_inverse_list(
    n: u32,
    starts: &[u32],
    images: &[u32],
    to_starts: &mut [u32],
    to_images: &mut [u32],
) -> ListAnswer
    ensures { InverseListAnswered n (runs starts.now images.now)
        to_starts.old to_images.old to_starts.new to_images.new result }
{
    let list = RunList { n, starts, images };
    let mut to = RunListMut {
        starts: to_starts,
        images: to_images,
    };
    ListAnswer::from(lists::inverse_list(list, &mut to))
}
