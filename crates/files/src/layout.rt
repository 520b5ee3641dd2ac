// The header of a file: its numbers, and where the starts and the images stand.
ghost use Rattle.std.specs.Prelude.{◌≡◌, ◌≤◌, length};
ghost use Rattle.outcomes.specs.Refusal.{says};
ghost use Rattle.runs.specs.Check.{max_runs};
ghost use Rattle.files.specs.Parts.{layout_of, numbers_of, heading_of};

use super::Header;
use super::words::word;
use outcomes::Refusal;

// Whether the file has its k starts and k images where they belong, and nothing more.
#[tactic(auto, unfolding(crate::specs::Parts::layout_of, crate::specs::File::layout_tests, outcomes::specs::Outcome::judge))]
fn check_layout(file: &[u8], k: u32) -> Result<(), Refusal>
    requires { (20 ≤ length file.now) × (k ≤ max_runs) }
    ensures { says result ≡ layout_of k file.now }
{
    let images_at = 20 + 4 * k;
    let end = 20 + 8 * (k as usize);
    if word(file, 3) != 20 {
        return Err(Refusal::FileHeader(12));
    }
    if word(file, 4) != images_at {
        return Err(Refusal::FileHeader(16));
    }
    if file.len() != end {
        return Err(Refusal::FileHeader(20));
    }
    Ok(())
}

// Whether the numbers that a header says are those of a file of at most `most` runs.
fn check_numbers(file: &[u8], header: Header, most: usize) -> Result<(), Refusal>
    requires { (20 ≤ length file.now) × (most ≤ max_runs) }
    ensures { says result ≡ numbers_of most header.n header.k file.now }
{
    if header.n == 0 || header.k == 0 {
        return Err(Refusal::ListShape);
    }
    if most < header.k as usize {
        return Err(Refusal::TooManyRuns);
    }
    check_layout(file, header.k)
}

// The header of a file of at most `most` runs.
pub fn read_header(file: &[u8], most: usize) -> Result<Header, Refusal>
    requires { most ≤ max_runs }
    ensures { says result ≡ heading_of most file.now }
{
    if file.len() < 20 {
        return Err(Refusal::FileHeader(0));
    }
    let header = Header {
        n: word(file, 0),
        k: word(file, 1),
        d: word(file, 2),
    };
    check_numbers(file, header, most)?;
    Ok(header)
}
