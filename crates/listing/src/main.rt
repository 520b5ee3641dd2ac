// Reads the file of a run list on standard input, and writes its listing, or the line of its refusal, on standard output.
// Of a longer file than can be listed the first bytes decide (listings, specs/Listing).

#![tactic(auto)]

ghost use Rattle.std.specs.Prelude.{◌≤◌, length, IfOk};

use std::io;
use std::io::Read;

// Reads until `file` is full or the input ends, and answers how many bytes came. An array has its length beside it here, and a loop
// fills it, since the program takes no heap, as the library.
fn read_file(rt: &impl Input, file: &mut [u8]) -> io::Result<usize>
    ensures { IfOk result (λ got. got ≤ length file.new) }
{
    let mut reader = rt.reader();
    let mut got = 0;
    while got < file.len() {
        let count = reader.read(&mut file[got..])?;
        if count == 0 {
            break;
        }
        got += count;
    }
    Ok(got)
}

fn main(rt: HostRuntime) -> io::Result<()> {
    let mut file = [0; listings::DECIDING_BYTES];
    let got = read_file(&rt, &mut file)?;
    let mut text = [0; listings::MAX_TEXT];
    let count = listings::list_file(&file[..got], &mut text);
    rt.write_all(&text[..count])
}
