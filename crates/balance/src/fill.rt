// Writes the tables of a list after cuts.
ghost use Rattle.std.specs.Prelude.{◌≡◌, map, ◌+◌, ◌-◌, ◌≤◌, ◌<◌, length, drop, leb};
ghost use Rattle.std.proofs.Math.Seq.{paste};
ghost use Rattle.order.specs.Lists.{leading};
ghost use Rattle.runs.specs.Legal.{Legal};
ghost use Rattle.runs.specs.Parts.{Lasts};
ghost use Rattle.runs.specs.Runs.{runs_in, run_at, map_of};
ghost use Rattle.tables.specs.Tables.{tables, lengths_of, tables_of, all_columns};
ghost use Rattle.merging.specs.Merged.{Starts};
ghost use Rattle.cuts.specs.Cuts.{with_cuts};
ghost use Rattle.balance.specs.Parts.{Has, ListWritten, TablesWritten};
ghost use Rattle.outcomes.specs.Outcome.{Long, over};

use runs::RunList;

// The image of `p`, which run `x` has.
fn image_of(list: RunList<'_>, x: usize, p: u32) -> u32
    requires { Legal list.n (runs_in list) × Has list.n list.starts.now x p }
    ensures { result ≡ map_of list.entry.n (runs_in list.entry) p }
{
    list.images[x] + (p - list.starts[x])
}

// Copies the entries of `from` from `x` on to those of `to` from `at` on.
fn copy_rest(from: &[u32], x: usize, to: &mut [u32], at: usize)
    requires { (x ≤ length from.now) × (at + (length from.now - x) ≤ length to.old) }
    ensures { to.new
        ≡ paste to.old at (drop x from.now) (length from.now - x) }
{
    let count = from.len() - x;
    to[at..at + count].copy_from_slice(&from[x..]);
}

// Copies the runs from run `x` on that start up to `most`, to the entries from `at` on, and answers how many. It copies as it
// compares: a search for the last of them and then `copy_rest` would take longer for the few runs that often stand between cuts.
fn copy_up_to(
    list: RunList<'_>,
    x: usize,
    most: u32,
    to_starts: &mut [u32],
    to_images: &mut [u32],
    at: usize,
) -> usize
    requires { (length list.images.now ≡ length list.starts.now) × (x ≤ length list.starts.now)
        × (at + (length list.starts.now - x) ≤ length to_starts.old)
        × (at + (length list.starts.now - x) ≤ length to_images.old) }
    ensures { (result ≡ leading (λ e. leb e most) (drop x list.entry.starts.now))
        × (to_starts.new ≡ paste to_starts.old at (drop x list.entry.starts.now) result)
        × (to_images.new ≡ paste to_images.old at (drop x list.entry.images.now) result) }
{
    let count = list.starts.len() - x;
    for i in 0..count {
        let start = list.starts[x + i];
        if most < start {
            return i;
        }
        to_starts[at + i] = start;
        to_images[at + i] = list.images[x + i];
    }
    count
}

// Writes the starts and the cuts in rising order, and their images. The runs up to a cut are copied, then the cut is written. So a
// list with no cut is copied whole, and no entry of it is compared. The two tables come one by one, as `write_tables` has them.
fn write_list(list: RunList<'_>, cuts: &[u32], to_starts: &mut [u32], to_images: &mut [u32])
    requires { Legal list.n (runs_in list) × Starts list.n list.starts.now cuts.now
        × (length list.starts.now + length cuts.now ≤ length to_starts.old)
        × (length list.starts.now + length cuts.now ≤ length to_images.old) }
    ensures { ListWritten list.entry.n (runs_in list.entry) cuts.now
        to_starts.old to_images.old to_starts.new to_images.new }
{
    let mut x = 0;
    for (c, cut) in cuts.iter().enumerate() {
        x += copy_up_to(list, x, *cut, to_starts, to_images, x + c);
        to_starts[x + c] = *cut;
        to_images[x + c] = image_of(list, x - 1, *cut);
    }
    copy_rest(list.starts, x, to_starts, x + cuts.len());
    copy_rest(list.images, x, to_images, x + cuts.len());
}

// Writes the length of each interval: where it ends minus its start. The last one, which ends at n, stands apart, so that each
// turn does the same and the compiler can make several at a time.
fn write_lengths(n: u32, starts: &[u32], to: &mut [u32])
    requires { (0 < length starts.now) × Lasts n starts.now × (length starts.now ≤ length to.old) }
    ensures { to.new ≡ over (lengths_of n starts.now) to.old }
{
    let last = starts.len() - 1;
    for x in 0..last {
        to[x] = starts[x + 1] - starts[x];
    }
    to[last] = n - starts[last];
}

// Writes the holder of each image, and the length of each interval. The holders are found with the table of the lengths as room,
// before these are written.
fn write_holders_and_lengths(list: RunList<'_>, to_holders: &mut [u32], to_lengths: &mut [u32])
    requires { Legal list.n (runs_in list) × (length list.starts.now ≤ length to_holders.old)
        × (length list.starts.now ≤ length to_lengths.old) }
    ensures { (to_holders.new ≡ over
        (map (run_at list.entry.n (runs_in list.entry)) list.entry.images.now) to_holders.old)
        × (to_lengths.new ≡ over (lengths_of list.entry.n list.entry.starts.now) to_lengths.old) }
{
    let room = &mut to_lengths[..list.starts.len()];
    holders::write_holders(list, to_holders, room);
    write_lengths(list.n, list.starts, to_lengths);
}

// Writes the tables of the list after the cuts. The four stay parameters of their own: with tables::MoveTableMut the proof didn't close
// here, since the first two are read while the others are written, and what such fields hold at exit is then not known.
pub(crate) fn write_tables(
    list: RunList<'_>,
    cuts: &[u32],
    to_starts: &mut [u32],
    to_images: &mut [u32],
    to_holders: &mut [u32],
    to_lengths: &mut [u32],
)
    requires { Legal list.n (runs_in list) × Starts list.n list.starts.now cuts.now
        × Long (length list.starts.now + length cuts.now)
        (all_columns (tables to_starts.old to_images.old to_holders.old to_lengths.old)) }
    ensures { TablesWritten
        (tables_of list.entry.n (with_cuts list.entry.n (runs_in list.entry) cuts.now))
        (tables to_starts.old to_images.old to_holders.old to_lengths.old)
        (tables to_starts.new to_images.new to_holders.new to_lengths.new) }
{
    write_list(list, cuts, to_starts, to_images);
    let k = list.starts.len() + cuts.len();
    let cut_list = RunList {
        n: list.n,
        starts: &to_starts[..k],
        images: &to_images[..k],
    };
    write_holders_and_lengths(cut_list, to_holders, to_lengths);
}
