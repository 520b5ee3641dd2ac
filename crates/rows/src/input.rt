// The bytes on standard input.
ghost use Rattle.std.specs.Prelude.{◌≤◌, length, IfOk};

use std::io;
use std::io::Read;

// Reads until `to` is full or the input ends, and answers how many bytes came. The loop stays by hand, since std's `read_to_end` wants the
// heap of its caller, and this asks for none.
pub fn read(rt: &impl Input, to: &mut [u8]) -> io::Result<usize>
    ensures { IfOk result (λ got. got ≤ length to.new) }
{
    let mut reader = rt.reader();
    let mut got = 0;
    while got < to.len() {
        let count = reader.read(&mut to[got..])?;
        if count == 0 {
            break;
        }
        got += count;
    }
    Ok(got)
}
