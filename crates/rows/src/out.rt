// Lines of text and numbers on standard output.
use outcomes::Refusal;
use std::fmt::Display;
use std::io;

// Bytes, which need not be UTF-8.
pub fn text(rt: &impl Print, s: &[u8]) -> io::Result<()> {
    rt.write_all(s)
}

pub fn line(rt: &impl Print, s: &[u8]) -> io::Result<()> {
    text(rt, s)?;
    println!(rt)
}

// The answer of a row that is no call.
pub fn no_call(rt: &impl Print) -> io::Result<()> {
    println!(rt; " no call")
}

// Values to the line's end.
pub fn values<T: Display>(rt: &impl Print, s: &[T]) -> io::Result<()> {
    for v in s {
        print!(rt; " {v}")?;
    }
    println!(rt)
}

// How many entries a part of a table has, and which.
pub fn stretch(rt: &impl Print, s: &[u32]) -> io::Result<()> {
    print!(rt; " {} :", s.len())?;
    values(rt, s)
}

// What a lent table holds.
pub fn now(rt: &impl Print, s: &[u32]) -> io::Result<()> {
    print!(rt; "now")?;
    values(rt, s)
}

// How many bytes were written to a lent text, and what it holds, with a bar at its end.
pub fn written(rt: &impl Print, count: usize, s: &[u8]) -> io::Result<()> {
    println!(rt; " {count}")?;
    text(rt, s)?;
    println!(rt; "|")
}

// The number and the place of a refusal.
pub fn refusal(rt: &impl Print, r: Refusal) -> io::Result<()> {
    println!(rt; " {} {}", r.number(), r.place())
}

// 0 and the values of an answer, or its refusal.
pub fn answer<const N: usize>(rt: &impl Print, a: Result<[u64; N], Refusal>) -> io::Result<()> {
    match a {
        Err(r) => refusal(rt, r),
        Ok(done) => {
            print!(rt; " 0")?;
            values(rt, &done)
        }
    }
}
