// The buckets: which one a place lies in, and the last run of each.
ghost use Rattle.std.specs.Prelude.{◌≡◌, ◌*◌, ◌≤◌, ◌<◌, length};
ghost use Rattle.holders.specs.Buckets.{bucket_of, Scaled, Tops};
ghost use Rattle.holders.specs.Parts.{Roomy, Bucketed, Noted, Raised};

use runs::RunList;

// The scale at which the places below n lie in `size` buckets.
fn scale_of(n: u32, size: usize) -> u64
    requires { (0 < size) × (size ≤ n) }
    ensures { Scaled n size result }
{
    size as u64 * 4294967296 / u64::from(n)
}

// The bucket of place `p`.
pub(crate) fn bucket_of(scale: u64, p: u32) -> usize
    requires { p * scale < 18446744073709551616 }
    ensures { result ≡ bucket_of scale p }
{
    (u64::from(p) * scale / 4294967296) as usize
}

// Notes each run in the bucket of its start, over those before it, and 0 where none starts.
fn note_runs(starts: &[u32], scale: u64, tops: &mut [u32])
    requires { (0 < length starts.now) × (length starts.now < 4294967296) × (length tops.old < 4294967296)
        × Bucketed scale starts.now (length tops.old) }
    ensures { Noted (length starts.now) scale starts.now tops.new
        (length starts.now) }
{
    tops.fill(0);
    for (x, start) in starts.iter().enumerate() {
        tops[bucket_of(scale, *start)] = x as u32;
    }
}

// Raises each entry to the largest up to it.
fn raise(tops: &mut [u32])
    ensures { Raised tops.old tops.new }
{
    let mut most = 0;
    for top in tops.iter_mut() {
        most = most.max(*top);
        *top = most;
    }
}

// Notes for each bucket the last run that starts in it or before it. Answers the scale.
pub(crate) fn note_tops(list: RunList<'_>, tops: &mut [u32]) -> u64
    requires { Roomy list.n list.starts.now tops.old }
    ensures { Tops list.entry.n result list.entry.starts.now tops.new }
{
    let scale = scale_of(list.n, list.starts.len());
    note_runs(list.starts, scale, tops);
    raise(tops);
    scale
}
