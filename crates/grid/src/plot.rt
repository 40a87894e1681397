// A plot of cells, what a step on it leads to, and the walk along links.
ghost use Rattle.std.specs.Prelude.{◌≡◌, false, ◌*◌, ◌%◌, ◌<◌, ◌≤◌, get_or};
ghost use Rattle.model.specs.Plot.{bad_sides, ahead};
ghost use Rattle.model.specs.Route.{leads};
ghost use Rattle.grid.specs.Walkable.{Walkable};
ghost use Rattle.grid.specs.Descent.{descend};
ghost use Rattle.grid.specs.CellOn.{cell_on};

// The sides of a plot, and the number of its cells.
#[derive(Clone, Copy, Debug, PartialEq, Eq)]
pub struct Plot {
    pub width: usize,
    pub height: usize,
    pub cells: usize,
    pub ghost product: { cells ≡ width * height },
    pub ghost few: { cells ≤ 65535 },
    pub ghost row: { width ≤ cells },
    pub ghost wide: { 0 < width },
}

impl Plot {
    pub fn new(width: usize, height: usize) -> Self
        requires { bad_sides width height ≡ false }
        ensures sides { (result.width ≡ width) × (result.height ≡ height) }
        ensures cells { result.cells ≡ width * height }
    {
        Self {
            width,
            height,
            cells: width * height,
        }
    }

    // The cell ahead of c in direction d, a byte of link or trail. One division, the caller's for the column, serves the four directions.
    pub fn ahead(self, c: usize, column: usize, d: u8) -> Option<usize>
        requires { (c < self.cells) × (column ≡ c % self.width) }
        ensures { result ≡ cell_on self.cells (ahead self.width self.height c d) }
    {
        match d {
            1 if column + 1 < self.width => Some(c + 1),
            2 if c + self.width < self.cells => Some(c + self.width),
            3 if 0 < column => Some(c - 1),
            4 if self.width <= c => Some(c - self.width),
            _ => None,
        }
    }

    // The same, where no other direction is asked.
    pub fn ahead_of(self, c: usize, d: u8) -> Option<usize>
        requires { c < self.cells }
        ensures { result ≡ cell_on self.cells (ahead self.width self.height c d) }
    {
        self.ahead(c, c % self.width, d)
    }

    // The cell that at's link leads to, where its learned value is one less than what is left.
    // (Learned values and links are lent apart, and a call may write one of them: what a walk asks of both stands in `Walkable`.)
    pub fn descend(self, learned: &[u16], link: &[u8], at: usize, left: u16) -> Option<usize>
        requires { Walkable self.width self.height at learned.now link.now }
        ensures { result ≡ cell_on self.cells (descend self.width self.height learned.now link.now left at) }
    {
        let fewer = left.checked_sub(1)?;
        let next = self.ahead_of(at, link[at])?;
        if learned[next] != fewer {
            return None;
        }
        Some(next)
    }

    // Whether links lead from c to the goal with the learned value falling by exactly 1 at each step. What is left of c's own
    // value bounds the steps, so links that go round end too.
    pub fn leads(self, goal: usize, learned: &[u16], link: &[u8], c: usize) -> bool
        requires { Walkable self.width self.height c learned.now link.now }
        ensures { result ≡ leads self.width self.height goal learned.now link.now (get_or learned.now c 0) c }
    {
        let mut at = c;
        let mut left = learned[c];
        // (A walk: a `for` over what is left would ask for the goal twice, in the loop and after it. `search::stop` walks so too, with a
        // memory that tests and writes at each cell: a parameter for that would be as long as the walk.)
        while at != goal {
            let Some(next) = self.descend(learned, link, at, left) else {
                return false;
            };
            at = next;
            left -= 1;
        }
        true
    }
}
