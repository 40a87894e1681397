// The fields of a record: their tags, where each begins, and where the record ends.
ghost use Rattle.std.specs.Prelude.{◌≡◌, ◌≤◌, ◌<◌};
ghost use Rattle.model.specs.Plot.{max_cells};
ghost use Rattle.record.specs.Tags.{tag_byte};
ghost use Rattle.model.specs.Record.{ground_size, learned_at, link_at, record_length};

// The fields of a record in their order. Each begins with the byte of its tag.
#[derive(Clone, Copy, Debug, PartialEq, Eq)]
pub enum Tag {
    Width = 1,
    Height,
    Goal,
    Cell,
    Ground,
    Learned,
    Link,
}

impl Tag {
    // (No From: `into` would not say that it is the byte.)
    pub fn byte(self) -> u8
        ensures { result ≡ tag_byte self }
    {
        self as u8
    }
}

// Where the first five fields begin, whatever the plot's size.
pub const WIDTH_AT: usize = 0;

pub const HEIGHT_AT: usize = 4;

pub const GOAL_AT: usize = 8;

pub const CELL_AT: usize = 13;

pub const GROUND_AT: usize = 18;

// How many bytes the ground of n cells takes, one for eight of them.
pub fn ground_size(n: usize) -> usize
    ensures { result ≡ ground_size n }
{
    n.div_ceil(8)
}

// Where the learned field and the link field of n cells begin, and where the record ends. (n ≤ max_cells is one bound of one number: no type.)
pub fn learned_at(n: usize) -> usize
    requires { n ≤ max_cells }
    ensures { result ≡ learned_at n }
{
    GROUND_AT + (3 + ground_size(n))
}

pub fn link_at(n: usize) -> usize
    requires { n ≤ max_cells }
    ensures { result ≡ link_at n }
{
    learned_at(n) + (3 + 2 * n)
}

pub fn record_length(n: usize) -> usize
    requires { n ≤ max_cells }
    ensures { result ≡ record_length n }
{
    link_at(n) + (3 + n)
}
