// Whether lengths are right: one, and all of them.
ghost use Rattle.std.specs.Prelude.{◌≡◌, ◌<◌, length};
ghost use Rattle.outcomes.specs.Search.{any_below};
ghost use Rattle.tables.specs.Tables.{mismatch, wrong_length};

// Whether a length is 0 or is not the end minus the start. Where the end lies above the start the difference does not wrap, and
// where it does not the answer is settled; so 32 bits are enough.
pub(crate) fn differs(start: u32, end: u32, length: u32) -> bool
    ensures { result ≡ mismatch start end length }
{
    (end <= start) | (end.wrapping_sub(start) != length)
}

// Whether one of all lengths is wrong. Each turn does the same whatever it sees, so that the compiler can make several at a time;
// the last interval, which ends at n, stands apart. It collects that all are right, since vectors are compared for equal and above, and
// what is not so would have to be turned over.
pub(crate) fn is_any_wrong(n: u32, starts: &[u32], lengths: &[u32]) -> bool
    requires { (0 < length starts.now) × (length lengths.now ≡ length starts.now) }
    ensures { result ≡ any_below (wrong_length n starts.now lengths.now) (length starts.now) }
{
    let last = starts.len() - 1;
    let mut right = true;
    for x in 0..last {
        right &= !differs(starts[x], starts[x + 1], lengths[x]);
    }
    !right | differs(starts[last], n, lengths[last])
}
