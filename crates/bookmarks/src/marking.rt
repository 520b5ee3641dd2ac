// A bookmark after a step.
ghost use Rattle.std.specs.Prelude.{◌≡◌};
ghost use Rattle.outcomes.specs.Refusal.{says};
ghost use Rattle.bookmarks.specs.Parts.{marked_of};

use super::Bookmark;
use outcomes::Refusal;
use walks::Step;

// The bookmark further by the step, where test 13 lets it: a counter may not pass its width.
#[tactic(auto, unfolding(crate::specs::Bookmark::overflows, crate::specs::Parts::marked_of, outcomes::specs::Outcome::judge))]
pub(crate) fn mark(b: Bookmark, s: Step) -> Result<Bookmark, Refusal>
    ensures { says result ≡ marked_of b s }
{
    let moves = b.moves.checked_add(1).ok_or(Refusal::CounterLimit)?;
    let count = b.count.checked_add(s.count).ok_or(Refusal::CounterLimit)?;
    Ok(Bookmark {
        place: s.place,
        interval: s.interval,
        distance: s.distance,
        moves,
        count,
    })
}
