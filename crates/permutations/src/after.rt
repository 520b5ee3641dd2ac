// The next permutation of some values in lexicographic order, by Narayana's method (Knuth's Algorithm L): the value before the last
// ascent changes places with the last value that is above it, and the values from the ascent on are reversed. Each value is worked
// out by itself, from its place, so that nothing is moved about.
ghost use Rattle.std.specs.Prelude.{◌≡◌, ◌≤◌, ◌<◌, length, take};
ghost use Rattle.permutations.specs.Values.{value_at};
ghost use Rattle.permutations.specs.Next.{ascent_of, exchange_of, changed, max_places};
ghost use Rattle.permutations.specs.Parts.{Ascent, Change, if_place};

use super::MAX_PLACES;

// The last place whose value is above the one before it.
pub(crate) fn last_ascent(values: &[u32]) -> Option<usize>
    ensures { result ≡ if_place (ascent_of values.now) }
{
    for i in (1..values.len()).rev() {
        if values[i - 1] < values[i] {
            return Some(i);
        }
    }
    None
}

// The last place whose value is above the one before an ascent. The ascent itself is such a place.
pub(crate) fn last_above(values: &[u32], ascent: usize) -> usize
    requires { Ascent values.now ascent }
    ensures { result ≡ exchange_of values.now ascent }
{
    let v = values[ascent - 1];
    for i in (ascent + 1..values.len()).rev() {
        if v < values[i] {
            return i;
        }
    }
    ascent
}

// The value at p after the change.
fn value_after(values: &[u32], ascent: usize, other: usize, p: usize) -> u32
    requires { Change values.now ascent other × (p < length values.now) }
    ensures { result ≡ value_at (changed values.now ascent other) p }
{
    if p + 1 < ascent {
        return values[p];
    }
    if p + 1 == ascent {
        return values[other];
    }
    let mirrored = values.len() - 1 - (p - ascent);
    if mirrored == other {
        return values[ascent - 1];
    }
    values[mirrored]
}

// All values after the change, in front of zeros.
pub(crate) fn change(values: &[u32], ascent: usize, other: usize) -> [u32; MAX_PLACES]
    requires { Change values.now ascent other × (length values.now ≤ max_places) }
    ensures { take (length values.now) result ≡ changed values.now ascent other }
{
    let mut after = [0; MAX_PLACES];
    for p in 0..values.len() {
        after[p] = value_after(values, ascent, other, p);
    }
    after
}
