// The lines that a drive prints, and their text.
ghost use Rattle.std.specs.Prelude.{◌≡◌, ◌++◌, ◌+◌, ◌≤◌, ◌<◌, length};
ghost use Rattle.printing.specs.Text.{line_feed, space, number};
ghost use Rattle.printing.specs.Lines.{is_last, longest_line, line_text};
ghost use Rattle.printing.specs.Pages.{Writes, SamePage};

use crate::Page;

#[derive(Clone, Copy, Debug, PartialEq, Eq)]
pub enum Line {
    Blocked(usize),
    Plan { length: usize, expanded: usize },
    Move(usize),
    Arrived(usize),
    NoWay(usize),
}

impl Line {
    // No line's text is longer.
    pub const LONGEST: usize = 50;

    // Whether the drive ends with this line.
    pub fn is_last(self) -> bool
        ensures { result ≡ is_last self }
    {
        matches!(self, Line::Arrived(_) | Line::NoWay(_))
    }
}

impl<'a> Page<'a> {
    // Words, a number and a line feed.
    fn put_worded(&mut self, words: &[u8], n: usize)
        requires { self.old.length + length words.now + 20 < length self.old.bytes.now }
        ensures text { Writes (words.now ++ number n line_feed) self.old self.new }
        ensures same { SamePage self.old self.new }
    {
        self.put_words(words);
        self.put_number(n, b'\n');
    }

    // Words, two numbers with a space between them, and a line feed.
    fn put_plan(&mut self, words: &[u8], n: usize, m: usize)
        requires { self.old.length + length words.now + 41 < length self.old.bytes.now }
        ensures text { Writes (words.now ++ number n space ++ number m line_feed) self.old self.new }
        ensures same { SamePage self.old self.new }
    {
        self.put_words(words);
        self.put_number(n, b' ');
        self.put_number(m, b'\n');
    }

    // The text of a line. (No Display: std's `write!` may answer an error, and no put here may fail.)
    pub fn put_line(&mut self, line: Line)
        requires { self.old.length + longest_line ≤ length self.old.bytes.now }
        ensures text { Writes (line_text line) self.old self.new }
        ensures same { SamePage self.old self.new }
    {
        match line {
            Line::Blocked(cell) => self.put_worded(b"blocked ", cell),
            Line::Plan { length, expanded } => self.put_plan(b"plan ", length, expanded),
            Line::Move(cell) => self.put_worded(b"move ", cell),
            Line::Arrived(moves) => self.put_worded(b"arrived ", moves),
            Line::NoWay(expanded) => self.put_worded(b"no way ", expanded),
        }
    }
}
