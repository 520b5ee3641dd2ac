// The file of a run list: its words, its header and its list, for our own crates, which go on with a file.
//
// What a file is, and the tests that it is held to, stand in specs/Words and specs/File; specs/Right says in plain facts
// which files are accepted, and specs/Parts what the functions here ask.

#![tactic(auto)]

mod layout;
mod words;

ghost use Rattle.std.specs.Prelude.{◌≡◌};
ghost use Rattle.runs.specs.Runs.{runs};
ghost use Rattle.files.specs.Words.{runs_at};
ghost use Rattle.files.specs.Parts.{ListRoom};

pub use layout::read_header;
use words::read_words;

// What the header of an accepted file says.
#[derive(Clone, Copy)]
pub struct Header {
    pub n: u32,
    pub k: u32,
    pub d: u32,
}

// Reads the list of a file whose header is right into two tables of k entries.
pub fn read_list(file: &[u8], k: usize, starts: &mut [u32], images: &mut [u32])
    requires { ListRoom file.now k starts.old images.old }
    ensures { runs starts.new images.new ≡ runs_at k file.now }
{
    read_words(file, 5, starts);
    read_words(file, 5 + k, images);
}
