// The listing of a file of a run list: bytes in, bytes out.
//
// specs/Listing says what the text is and what `list_file` promises.

#![tactic(auto)]

mod lines;
mod table;

ghost use Rattle.std.specs.Prelude.{◌≡◌, ◌≤◌, length, ltb};
ghost use Rattle.outcomes.specs.Outcome.{◌then◌else◌};
ghost use Rattle.outcomes.specs.Refusal.{number_of, place_of};
ghost use Rattle.runs.specs.Runs.{runs};
ghost use Rattle.tables.specs.Tables.{tables_in};
ghost use Rattle.text.specs.Text.{refusal_text};
ghost use Rattle.text.specs.Page.{SamePage, Writes};
ghost use Rattle.files.specs.Words.{runs_of};
ghost use Rattle.files.specs.Parts.{Laid, ListRoom, listed_of, body_of};
ghost use Rattle.listings.specs.Listing.{max_listed, list_text, listing_of, FileListed};
ghost use Rattle.listings.specs.Parts.{IsFresh, Answered, answer_text};

use files::Header;
use outcomes::Refusal;
use runs::RunList;
use table::table;
use tables::{MoveTable, MoveTableMut};
use text::Page;

// The most runs that are listed.
pub const MAX_LISTED: usize = 1024;

// Twice as many: the most intervals.
const MAX_TABLED: usize = 2048;

// No listing has more bytes.
pub const MAX_TEXT: usize = 137260;

// No file that is listed has so many bytes: of a longer one so many first bytes decide (specs/Listing).
pub const DECIDING_BYTES: usize = 8213;

// Writes the line of a refusal at the page's start.
fn refusal_line(page: &mut Page<'_>, r: Refusal)
    requires { IsFresh page.old }
    ensures wrote { Writes page.old (refusal_text (number_of r) (place_of r)) page.new }
    ensures lent { SamePage page.old page.new }
{
    page.refusal(r.number(), r.place());
}

// Writes what balancing answered: the listing of the tables that it filled, or its refusal.
fn answer_text(page: &mut Page<'_>, h: Header, answer: Result<u32, Refusal>, lent: MoveTable<'_>)
    requires { Answered h.n answer (tables_in lent) × IsFresh page.old }
    ensures wrote { Writes page.old (answer_text h answer (runs lent.entry.starts.now lent.entry.images.now)) page.new }
    ensures lent { SamePage page.old page.new }
{
    match answer {
        Err(r) => refusal_line(page, r),
        Ok(k) => table(page, h, k, lent),
    }
}

// Balances a list, and writes its listing or the refusal: tests 1 to 7, for 8 cannot apply to so few runs.
fn list_runs(page: &mut Page<'_>, h: Header, starts: &[u32], images: &[u32])
    requires { (length starts.now ≤ max_listed) × IsFresh page.old }
    ensures wrote { Writes page.old (list_text (runs starts.now images.now) (listed_of h (runs starts.now images.now))) page.new }
    ensures lent { SamePage page.old page.new }
{
    let list = RunList {
        n: h.n,
        starts,
        images,
    };
    let mut to_starts = [0; MAX_TABLED];
    let mut to_images = [0; MAX_TABLED];
    let mut to_holders = [0; MAX_TABLED];
    let mut to_lengths = [0; MAX_TABLED];
    let mut working = [0; MAX_TABLED];
    let mut to = MoveTableMut {
        starts: &mut to_starts,
        images: &mut to_images,
        holders: &mut to_holders,
        lengths: &mut to_lengths,
    };
    let answer = balance::balance(list, h.d, &mut to, &mut working);
    let lent = MoveTable {
        n: h.n,
        starts: &to_starts,
        images: &to_images,
        holders: &to_holders,
        lengths: &to_lengths,
    };
    answer_text(page, h, answer, lent);
}

// Reads the list of a file whose header is right, and writes its listing or the refusal, with room for the list.
fn list_read(page: &mut Page<'_>, file: &[u8], h: Header, starts: &mut [u32], images: &mut [u32])
    requires { Laid max_listed file.now h × ListRoom file.now h.k starts.old images.old × IsFresh page.old }
    ensures wrote { Writes page.old (list_text (runs_of file.now) (body_of file.now)) page.new }
    ensures lent { SamePage page.old page.new }
{
    files::read_list(file, h.k as usize, starts, images);
    list_runs(page, h, starts, images);
}

// The same, with room of its own.
fn list_body(page: &mut Page<'_>, file: &[u8], h: Header)
    requires { Laid max_listed file.now h × IsFresh page.old }
    ensures wrote { Writes page.old (list_text (runs_of file.now) (body_of file.now)) page.new }
    ensures lent { SamePage page.old page.new }
{
    let k = h.k as usize;
    let mut starts = [0; MAX_LISTED];
    let mut images = [0; MAX_LISTED];
    list_read(page, file, h, &mut starts[..k], &mut images[..k]);
}

// Writes the listing of a file at the page's start.
fn listing(page: &mut Page<'_>, file: &[u8])
    requires { IsFresh page.old }
    ensures wrote { Writes page.old (listing_of file.now) page.new }
    ensures lent { SamePage page.old page.new }
{
    match files::read_header(file, MAX_LISTED) {
        Err(r) => refusal_line(page, r),
        Ok(h) => list_body(page, file, h),
    }
}

// As many bytes as there are to be copied, or none where there is no room for them.
fn fitting(count: usize, room: usize) -> usize
    ensures { result ≡ (ltb room count then 0 else count) }
{
    if room < count { 0 } else { count }
}

// Writes the listing of a file, or the line of its refusal, at the start of `text`, and answers how many bytes that are;
// 0, and nothing is written, where `text` is too short. The listing is written by way of a page, so that such a text is left alone.
pub fn list_file(file: &[u8], text: &mut [u8]) -> usize
    ensures { FileListed file.now text.old text.new result }
{
    let mut bytes = [0; MAX_TEXT];
    let mut page = Page {
        bytes: &mut bytes,
        at: 0,
    };
    listing(&mut page, file);
    let count = fitting(page.at, text.len());
    text::copy(&page.bytes[..count], text)
}
