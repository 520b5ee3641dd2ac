// The check of a file of a run list: any bytes are accepted or refused.
//
// The definitions that its contract cites, and which files are right, stand with the file (crate files).

#![tactic(auto)]

ghost use Rattle.std.specs.Prelude.{◌≡◌, ◌≤◌};
ghost use Rattle.outcomes.specs.Refusal.{says};
ghost use Rattle.runs.specs.Check.{max_runs};
ghost use Rattle.files.specs.File.{file_of};
ghost use Rattle.files.specs.Parts.{Laid, degree_of, body_of};

use files::Header;
use outcomes::Refusal;
use runs::RunList;

// Test 7 of a header.
#[tactic(auto, unfolding(files::specs::Parts::degree_of, outcomes::specs::Outcome::judge))]
fn check_degree(header: Header) -> Result<Header, Refusal>
    ensures { says result ≡ degree_of header }
{
    if !outcomes::is_degree(header.d) {
        return Err(Refusal::Degree(header.d));
    }
    Ok(header)
}

// Tests 3 to 7 of a file whose header is right and says at most N runs, with its list in tables of N entries and a frame of its own. A call
// touches each page of its frame, so the check of a short list should have no large tables in its caller's, and that of a long one no
// small ones beside its own (docs/DECISIONS.md, "Few runs get small tables").
#[inline(never)]
fn check_apart<const N: usize>(file: &[u8], header: Header) -> Result<Header, Refusal>
    requires { Laid max_runs file.now header × (header.k ≤ N) × (N ≤ max_runs) }
    ensures { says result ≡ body_of file.now }
{
    let k = header.k as usize;
    let mut starts = [0; N];
    let mut images = [0; N];
    let starts = &mut starts[..k];
    let images = &mut images[..k];
    files::read_list(file, k, starts, images);
    lists::check(RunList {
        n: header.n,
        starts,
        images,
    })?;
    check_degree(header)
}

// The same for any number of runs.
fn check_body(file: &[u8], header: Header) -> Result<Header, Refusal>
    requires { Laid max_runs file.now header }
    ensures { says result ≡ body_of file.now }
{
    let k = header.k as usize;
    if k <= runs::FEW_RUNS {
        check_apart::<{ runs::FEW_RUNS }>(file, header)
    } else if k <= runs::SOME_RUNS {
        check_apart::<{ runs::SOME_RUNS }>(file, header)
    } else {
        check_apart::<{ runs::MAX_RUNS }>(file, header)
    }
}

// Whether the file is one of a legal list of at most 16,384 runs with a degree from 2 to 64, and what its header says.
pub fn check_file(file: &[u8]) -> Result<Header, Refusal>
    ensures { says result ≡ file_of max_runs file.now }
{
    let header = files::read_header(file, runs::MAX_RUNS)?;
    check_body(file, header)
}
