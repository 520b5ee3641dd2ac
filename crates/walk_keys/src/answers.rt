// What each call answers, as the rest of a line.
use bookmarks::Marked;
use outcomes::Refusal;
use preimages::Source;
use rows::out;
use std::io;
use walks::Step;
use weights::Stretch;

pub(crate) fn number(rt: &impl Print, a: Result<u32, Refusal>) -> io::Result<()> {
    out::answer(rt, a.map(|x| [u64::from(x)]))
}

fn values_of(s: Step) -> [u64; 4] {
    [
        u64::from(s.place),
        u64::from(s.interval),
        u64::from(s.distance),
        s.count,
    ]
}

pub(crate) fn moved(rt: &impl Print, a: Result<Step, Refusal>) -> io::Result<()> {
    out::answer(rt, a.map(values_of))
}

pub(crate) fn inverted(rt: &impl Print, a: Result<Source, Refusal>) -> io::Result<()> {
    out::answer(rt, a.map(|s| [u64::from(s.place), u64::from(s.interval)]))
}

pub(crate) fn stretched(rt: &impl Print, a: Result<Stretch, Refusal>) -> io::Result<()> {
    out::answer(rt, a.map(|s| [u64::from(s.first), u64::from(s.count)]))
}

// The answer, and what a bookmark holds after its move: place, interval, distance, moves, and how many starts these read.
pub(crate) fn marked(rt: &impl Print, m: Marked) -> io::Result<()> {
    let b = m.bookmark;
    moved(rt, m.moved)?;
    println!(rt;
        "now {} {} {} {} {}",
        b.place, b.interval, b.distance, b.moves, b.count
    )
}
