// The lines of a listing, one for each interval of the tables of a legal list.
ghost use Rattle.std.specs.Prelude.{◌≡◌, ◌+◌, ◌*◌, ◌≤◌, ◌<◌, length, take};
ghost use Rattle.order.specs.Lists.{up_to};
ghost use Rattle.runs.specs.Runs.{runs};
ghost use Rattle.tables.specs.Tables.{tables_in};
ghost use Rattle.runs.specs.Weight.{weight};
ghost use Rattle.text.specs.Text.{texts};
ghost use Rattle.text.specs.Page.{HasRoom, SamePage, Writes};
ghost use Rattle.listings.specs.Listing.{row_of, table_text};
ghost use Rattle.listings.specs.Parts.{max_row, IsFresh, Listed, Tabled};

use super::lines;
use files::Header;
use tables::MoveTable;
use text::Page;

// The weight of interval x, which no table of a legal list refuses.
fn weight_of(table: MoveTable<'_>, x: u32) -> u32
    requires { Listed table.n (tables_in table) × (x < length table.starts.now) }
    ensures { result ≡ weight table.entry.n (runs table.entry.starts.now table.entry.images.now) x }
{
    weights::weight(table, x).unwrap_or(0)
}

// Writes the line of interval x.
fn interval_row(page: &mut Page<'_>, table: MoveTable<'_>, x: u32)
    requires { Listed table.n (tables_in table) × (x < length table.starts.now)
        × HasRoom page.old (row_of table.n (runs table.starts.now table.images.now) x) }
    ensures wrote { Writes page.old (row_of table.entry.n (runs table.entry.starts.now table.entry.images.now) x) page.new }
    ensures lent { SamePage page.old page.new }
{
    let i = x as usize;
    let start = table.starts[i];
    let image = table.images[i];
    let weight = weight_of(table, x);
    let shift = lists::shift(start, image);
    lines::row(page, x, start, image, shift, table.holders[i], weight);
}

// Writes the lines of all intervals.
fn rows(page: &mut Page<'_>, table: MoveTable<'_>)
    requires { Listed table.n (tables_in table) × (page.old.at + max_row * length table.starts.now ≤ length page.old.bytes.now) }
    ensures wrote { Writes page.old
        (texts (row_of table.entry.n (runs table.entry.starts.now table.entry.images.now)) (up_to (length table.entry.starts.now)))
        page.new }
    ensures lent { SamePage page.old page.new }
{
    for x in 0..table.starts.len() {
        interval_row(page, table, x as u32);
    }
}

// Writes the listing of a balanced list's tables, the first `size` entries of each column, at the page's start.
pub(crate) fn table(page: &mut Page<'_>, h: Header, size: u32, lent: MoveTable<'_>)
    requires { Tabled h.n size (tables_in lent) × IsFresh page.old }
    ensures wrote { Writes page.old (table_text h (runs (take size lent.entry.starts.now) (take size lent.entry.images.now))) page.new }
    ensures lent { SamePage page.old page.new }
{
    let k = size as usize;
    lines::head(page, h.n, h.k, h.d, size);
    let table = MoveTable {
        n: h.n,
        starts: &lent.starts[..k],
        images: &lent.images[..k],
        holders: &lent.holders[..k],
        lengths: &lent.lengths[..k],
    };
    rows(page, table);
}
