// What is held from line to line: the buffers, what is lent of them, and the head.
use crate::lending::Lending;
use crate::show::{entries, say};
use model::Head;
use std::io;

// Entries of each buffer: two more than the largest plot has cells.
pub const ROOM: usize = Head::MAX_CELLS + 2;

#[derive(Drop)]
pub struct State {
    pub ground: [u8; ROOM],
    pub learned: [u16; ROOM],
    pub link: [u8; ROOM],
    pub mark: [u8; ROOM],
    pub cost: [u16; ROOM],
    pub trail: [u8; ROOM],
    pub list: [u16; ROOM],
    pub lending: Lending,
    pub head: Head,
}

impl State {
    // Every byte holds b, and every 16-bit entry w.
    pub(crate) fn fresh(lending: Lending, b: u8, w: u16) -> Self {
        let bytes = [b; ROOM];
        let words = [w; ROOM];
        Self {
            ground: bytes,
            learned: words,
            link: bytes,
            mark: bytes,
            cost: words,
            trail: bytes,
            list: words,
            lending,
            head: Head::none(),
        }
    }

    // What the three buffers hold at c.
    pub(crate) fn set_cell(&mut self, c: usize, ground: usize, learned: usize, link: usize) {
        if c < ROOM {
            self.ground[c] = (ground % 256) as u8;
            self.learned[c] = (learned % 65536) as u16;
            self.link[c] = (link % 256) as u8;
        }
    }

    // The first n entries of each buffer, and the checksum of all.
    pub(crate) fn tell_entries(&self, rt: &impl Print, n: usize) -> io::Result<()> {
        say(rt, b"\n  sum", self.checksum(rt, n)?)
    }

    // The checksum of every entry of every buffer. The first n entries of each are printed.
    pub(crate) fn checksum(&self, rt: &impl Print, n: usize) -> io::Result<usize> {
        let mut sum = entries(rt, 0, b"\n  ground", &self.ground, n)?;
        sum = entries(rt, sum, b"\n  learned", &self.learned, n)?;
        sum = entries(rt, sum, b"\n  link", &self.link, n)?;
        sum = entries(rt, sum, b"\n  mark", &self.mark, n)?;
        sum = entries(rt, sum, b"\n  cost", &self.cost, n)?;
        sum = entries(rt, sum, b"\n  trail", &self.trail, n)?;
        entries(rt, sum, b"\n  list", &self.list, n)
    }
}
