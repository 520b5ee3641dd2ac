// The check of a file and its listing as C functions on bytes, for a host program in Rust or C: thin above the proved operations.
// docs/BOUNDARY.md says what a caller owes and how an answer is read.
//
// The listing answers no struct, but how many bytes it wrote; a refusal is its text.

#![tactic(auto)]

ghost use Rattle.std.specs.Prelude.{◌≡◌};
ghost use Rattle.outcomes.specs.Refusal.{says};
ghost use Rattle.runs.specs.Check.{max_runs};
ghost use Rattle.files.specs.File.{file_of};
ghost use Rattle.listings.specs.Listing.{FileListed};
ghost use Rattle.export_files.specs.Answers.{file_answer};

use files::Header;
use outcomes::Refusal;

// The answer of the check: what the file's header says. Its place is 0 where it is done.
#[repr(C)]
#[derive(Clone, Copy)]
pub struct FileAnswer {
    pub number: u32,
    pub place: u32,
    pub n: u32,
    pub k: u32,
    pub d: u32,
}

impl From<Result<Header, Refusal>> for FileAnswer {
    ghost from_gives = { λ answer r. r ≡ file_answer (says answer) };

    fn from(answer: Result<Header, Refusal>) -> FileAnswer {
        match answer {
            Ok(header) => FileAnswer {
                number: 0,
                place: 0,
                n: header.n,
                k: header.k,
                d: header.d,
            },
            Err(refusal) => FileAnswer {
                number: refusal.number(),
                place: refusal.place(),
                n: 0,
                k: 0,
                d: 0,
            },
        }
    }
}

// Whether a file is one of a legal list of at most 16,384 runs with a degree from 2 to 64.
#[unsafe(no_mangle)]
pub extern "C" fn zibewoka_check_file(file: &[u8]) -> FileAnswer
    ensures { result ≡ file_answer (file_of max_runs file.now) }
{
    FileAnswer::from(file_checks::check_file(file))
}

// Writes the listing of a file of at most 1,024 runs, or the line of its refusal, at the start of a lent text. Answers how many
// bytes that are; 0, and nothing is written, where the text is too short.
#[unsafe(no_mangle)]
pub extern "C" fn zibewoka_list_file(file: &[u8], text: &mut [u8]) -> usize
    ensures { FileListed file.now text.old text.new result }
{
    listings::list_file(file, text)
}
