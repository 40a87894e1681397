// The declared types of the calls: the head, why a call is refused, and what each call answers.
// The definitions that say what the calls do stand in specs/, in document 01's order; their laws stand in proofs/.

#![tactic(auto)]

ghost use Rattle.std.specs.Prelude.{◌≡◌};
ghost use Rattle.model.specs.Plot.{bad_sides};
ghost use Rattle.model.specs.Numbers.{reason_number, outcome_verdict, step_verdict};
ghost use Rattle.model.specs.Head.{head_at, no_head, moved_to, aimed_at};

// The plot's sides, its goal and the cart's cell. It goes in by value, and the next head comes back. (No method for the number of
// cells: a head may hold any sides, and where they have passed their test the product is as short.)
#[derive(Clone, Copy, Debug, PartialEq, Eq)]
pub struct Head {
    pub width: usize,
    pub height: usize,
    pub goal: usize,
    pub cell: usize,
}

impl Head {
    // The largest side, and the largest number of cells.
    pub const MAX_SIDE: usize = 64;

    pub const MAX_CELLS: usize = Self::MAX_SIDE * Self::MAX_SIDE;

    // A side is 0 or above the largest. Good sides come first: only they have a product that fits. (So two numbers, here and in the tests
    // that ask this: a plot is what has passed it. A range's `contains` would be denied.)
    #[tactic(auto, unfolding(crate::specs::Plot::bad_sides))]
    pub fn bad_sides(width: usize, height: usize) -> bool
        ensures { result ≡ bad_sides width height }
    {
        width == 0 || Self::MAX_SIDE < width || height == 0 || Self::MAX_SIDE < height
    }

    pub fn new(width: usize, height: usize, goal: usize, cell: usize) -> Self
        ensures { result ≡ head_at width height goal cell }
    {
        Self {
            width,
            height,
            goal,
            cell,
        }
    }

    // The head of zeros: layout and load, which are given none, return it with a refusal.
    pub fn none() -> Self
        ensures { result ≡ no_head }
    {
        Self::new(0, 0, 0, 0)
    }

    // The same plot and goal, with the cart on another cell.
    pub fn moved_to(mut self, cell: usize) -> Self
        ensures { result ≡ moved_to self cell }
    {
        self.cell = cell;
        self
    }

    // The same plot and cart, with another goal.
    pub fn aimed_at(mut self, goal: usize) -> Self
        ensures { result ≡ aimed_at self goal }
    {
        self.goal = goal;
        self
    }
}

// Why a call is refused, in the order of document 01's table.
#[derive(Clone, Copy, Debug, PartialEq, Eq)]
pub enum Reason {
    Sides,
    Short,
    Outside,
    Unsound,
    OwnCell,
    NoRoute,
    Form,
}

impl Reason {
    // (No From: a number is document 01's word for it, and `usize::from(why)` would not say which number.)
    pub fn number(self) -> usize
        ensures { result ≡ reason_number self }
    {
        match self {
            Reason::Sides => 1,
            Reason::Short => 2,
            Reason::Outside => 3,
            Reason::Unsound => 4,
            Reason::OwnCell => 5,
            Reason::NoRoute => 6,
            Reason::Form => 8,
        }
    }
}

// What layout, report and load answer. (A head beside the verdict, here and below: a refusal hands back the head that was given, or zeros.)
#[derive(Clone, Copy, Debug, PartialEq, Eq)]
pub struct Changed {
    pub head: Head,
    pub verdict: Result<(), Reason>,
}

// What plan answers: how it ended, and the count of expanded cells, 0 where there was no search. (The refusal is a case and no Err: it
// is the form that document 01 gives this answer.)
#[derive(Clone, Copy, Debug, PartialEq, Eq)]
pub enum Outcome {
    Route(usize),
    NoWay,
    Arrived,
    Refused(Reason),
}

impl Outcome {
    // (No From: `into` would not say what is asked.)
    pub fn verdict(self) -> Result<(), Reason>
        ensures { result ≡ outcome_verdict self }
    {
        match self {
            Outcome::Route(_) | Outcome::NoWay | Outcome::Arrived => Ok(()),
            Outcome::Refused(why) => Err(why),
        }
    }
}

#[derive(Clone, Copy, Debug, PartialEq, Eq)]
pub struct Planned {
    pub head: Head,
    pub expanded: usize,
    pub outcome: Outcome,
}

// What move answers.
#[derive(Clone, Copy, Debug, PartialEq, Eq)]
pub enum Step {
    Moved,
    Arrived,
}

#[derive(Clone, Copy, Debug, PartialEq, Eq)]
pub struct Moved {
    pub head: Head,
    pub step: Result<Step, Reason>,
}

impl Moved {
    // (No From, as for a plan.)
    pub fn verdict(self) -> Result<(), Reason>
        ensures { result ≡ step_verdict self.step }
    {
        self.step.map(|_| ())
    }
}

// What save answers: the record's length.
#[derive(Clone, Copy, Debug, PartialEq, Eq)]
pub struct Saved {
    pub head: Head,
    pub length: Result<usize, Reason>,
}
