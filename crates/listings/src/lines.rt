// The two kinds of lines that a listing has.
ghost use Rattle.std.specs.Prelude.{◌<◌, nat_abs};
ghost use Rattle.text.specs.Text.{max_size};
ghost use Rattle.text.specs.Page.{HasRoom, SamePage, Writes};
ghost use Rattle.listings.specs.Listing.{head_text, row_text};

use text::Page;

// Writes the first line of a listing.
pub(crate) fn head(page: &mut Page<'_>, n: u32, k: u32, d: u32, size: u32)
    requires { HasRoom page.old (head_text n k d size) }
    ensures wrote { Writes page.old (head_text n k d size) page.new }
    ensures lent { SamePage page.old page.new }
{
    page.pair(n, k, b' ');
    page.pair(d, size, b'\n');
}

// Writes an interval's line.
pub(crate) fn row(
    page: &mut Page<'_>,
    x: u32,
    start: u32,
    image: u32,
    shift: i64,
    holder: u32,
    weight: u32,
)
    requires { (nat_abs shift < max_size) × HasRoom page.old (row_text x start image shift holder weight) }
    ensures wrote { Writes page.old (row_text x start image shift holder weight) page.new }
    ensures lent { SamePage page.old page.new }
{
    page.pair(x, start, b' ');
    page.field(image, b' ');
    page.signed_field(shift, b' ');
    page.pair(holder, weight, b'\n');
}
