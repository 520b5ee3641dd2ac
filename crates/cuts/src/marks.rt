// Marks that the sweep sets anew, or moves on by many entries.
ghost use Rattle.std.specs.Prelude.{◌≡◌, ◌+◌, ◌≤◌, get_or};
ghost use Rattle.order.specs.Lists.{Sorted, count_below};
ghost use Rattle.merging.specs.Merged.{merged, Starts};
ghost use Rattle.merging.specs.Marks.{At};
ghost use Rattle.cuts.specs.Marks.{Skips, Lookable, Reaches, Looks};

use super::Looked;
use merging::{Entries, Mark};
use order::entry_or;

// The mark before the first entry at or above `t`.
pub(crate) fn mark_at(entries: Entries<'_>, t: u32) -> Mark
    requires { Sorted entries.starts.now × Sorted entries.cuts.now }
    ensures { (result.starts ≡ count_below t entries.entry.starts.now)
        × (result.cuts ≡ count_below t entries.entry.cuts.now) }
{
    Mark {
        starts: searching::count_below(entries.starts, t),
        cuts: searching::count_below(entries.cuts, t),
    }
}

// The mark `count` entries on, or sooner, before the first entry that is not below `to`.
fn skip(entries: Entries<'_>, mark: Mark, count: usize, to: u32) -> Mark
    requires { Starts entries.n entries.starts.now entries.cuts.now
        × At entries.n entries.starts.now entries.cuts.now mark (mark.starts + mark.cuts)
        × (mark.starts + mark.cuts ≤ count_below to (merged entries.starts.now entries.cuts.now)) × (to ≤ entries.n) }
    ensures { Skips entries.entry.n entries.entry.starts.now entries.entry.cuts.now mark count to result }
{
    let mut at = mark;
    for _ in 0..count {
        let step = entries.step(at);
        if to <= step.entry {
            return at;
        }
        at = step.mark;
    }
    at
}

// Two looks of `d` entries each, from the mark on up to `to`.
#[tactic(auto, using(merging::proofs::Merged::merged_length))]
fn look_at_both(entries: Entries<'_>, mark: Mark, d: usize, to: u32) -> Looked
    requires { Lookable entries.n entries.starts.now entries.cuts.now mark d to }
    ensures { Looks entries.entry.n entries.entry.starts.now entries.entry.cuts.now mark d to result }
{
    let middle = skip(entries, mark, d, to);
    let last = skip(entries, middle, d, to);
    if last.starts + last.cuts < mark.starts + mark.cuts + 2 * d {
        return Looked {
            heavy: false,
            to,
            mark: last,
        };
    }
    Looked {
        heavy: true,
        to: entries.entry_at(middle),
        mark: middle,
    }
}

// How many starts are below `to`, from index `from` on and at most `most` of them.
fn starts_below(entries: Entries<'_>, from: usize, most: usize, to: u32) -> usize
    requires { Sorted entries.starts.now × (from ≤ count_below to entries.starts.now) × (to ≤ entries.n) }
    ensures { Reaches entries.entry.starts.now from most to result }
{
    for passed in 0..most {
        if to <= entry_or(entries.starts, from + passed, entries.n) {
            return passed;
        }
    }
    most
}

// The same where no cut is below `to` from the mark on, so that the starts alone tell.
fn look_at_starts(entries: Entries<'_>, mark: Mark, d: usize, to: u32) -> Looked
    requires { Lookable entries.n entries.starts.now entries.cuts.now mark d to × (to ≤ get_or entries.cuts.now mark.cuts entries.n) }
    ensures { Looks entries.entry.n entries.entry.starts.now entries.entry.cuts.now mark d to result }
{
    let from = mark.starts;
    let passed = starts_below(entries, from, 2 * d, to);
    if passed < 2 * d {
        return Looked {
            heavy: false,
            to,
            mark: Mark {
                starts: from + passed,
                cuts: mark.cuts,
            },
        };
    }
    Looked {
        heavy: true,
        to: entries.starts[from + d],
        mark: Mark {
            starts: from + d,
            cuts: mark.cuts,
        },
    }
}

// Whether 2d starts and cuts or more are below `to` from the mark on, and which one of them comes after d.
pub(crate) fn look(entries: Entries<'_>, mark: Mark, d: usize, to: u32) -> Looked
    requires { Lookable entries.n entries.starts.now entries.cuts.now mark d to }
    ensures { Looks entries.entry.n entries.entry.starts.now entries.entry.cuts.now mark d to result }
{
    if to <= entry_or(entries.cuts, mark.cuts, entries.n) {
        look_at_starts(entries, mark, d, to)
    } else {
        look_at_both(entries, mark, d, to)
    }
}
