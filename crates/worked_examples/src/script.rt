// The script's text: what a line says.
use crate::lending::{Buffer, Lending};
use model::Head;

// A line is known by its first letter, and its numbers follow its name. A letter that means nothing shows the entries, so that a
// slip of the pen is seen.
#[derive(Clone, Copy, Debug, PartialEq, Eq)]
pub enum Order {
    Note,
    Fresh(Lending),
    Zeros(Lending),
    Head(Head),
    Cell {
        c: usize,
        ground: usize,
        learned: usize,
        link: usize,
    },
    Layout {
        width: usize,
        height: usize,
        start: usize,
        goal: usize,
    },
    Report(usize),
    Plan,
    Move,
    Question,
    Entries(usize),
}

// The number with one digit more. It wraps where 64 bits don't hold it.
fn with_digit(n: usize, digit: u8) -> usize {
    let units = digit.wrapping_sub(b'0') as usize;
    (n % 1844674407370955162 * 10).wrapping_add(units)
}

// The number at this place of a line, whose first word has place 0; 0 where the line ends before it. (No `parse`: a slip of the pen
// must show what it always showed.)
fn number(line: &[u8], place: usize) -> usize {
    match line.split(|byte| *byte == b' ').nth(place) {
        Some(word) => word.iter().fold(0, |n, digit| with_digit(n, *digit)),
        None => 0,
    }
}

impl From<&[u8]> for Order {
    fn from(line: &[u8]) -> Self {
        let a = number(line, 1);
        let b = number(line, 2);
        let c = number(line, 3);
        let d = number(line, 4);
        let lending = Lending {
            room: a,
            short: Buffer::numbered(b),
        };
        match line.first() {
            Some(b'#') => Self::Note,
            Some(b'f') => Self::Fresh(lending),
            Some(b'z') => Self::Zeros(lending),
            Some(b'h') => Self::Head(Head::new(a, b, c, d)),
            Some(b'c') => Self::Cell {
                c: a,
                ground: b,
                learned: c,
                link: d,
            },
            Some(b'l') => Self::Layout {
                width: a,
                height: b,
                start: c,
                goal: d,
            },
            Some(b'r') => Self::Report(a),
            Some(b'p') => Self::Plan,
            Some(b'm') => Self::Move,
            Some(b'q') => Self::Question,
            _ => Self::Entries(a),
        }
    }
}
