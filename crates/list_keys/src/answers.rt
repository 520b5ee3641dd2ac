// What each call answers, as the rest of a line.
use files::Header;
use forecasts::{BalancedSize, LeastDegree};
use outcomes::Refusal;
use rows::out;
use std::io;

pub(crate) fn checked(rt: &impl Print, a: Result<(), Refusal>) -> io::Result<()> {
    out::answer(rt, a.map(|()| []))
}

pub(crate) fn count(rt: &impl Print, a: Result<u32, Refusal>) -> io::Result<()> {
    out::answer(rt, a.map(|k| [u64::from(k)]))
}

pub(crate) fn size(rt: &impl Print, a: Result<BalancedSize, Refusal>) -> io::Result<()> {
    out::answer(rt, a.map(|s| [u64::from(s.intervals), u64::from(s.cuts)]))
}

pub(crate) fn degree(rt: &impl Print, a: Result<LeastDegree, Refusal>) -> io::Result<()> {
    out::answer(rt, a.map(|d| [u64::from(d.degree), u64::from(d.intervals)]))
}

pub(crate) fn file(rt: &impl Print, a: Result<Header, Refusal>) -> io::Result<()> {
    out::answer(
        rt,
        a.map(|h| [u64::from(h.n), u64::from(h.k), u64::from(h.d)]),
    )
}
