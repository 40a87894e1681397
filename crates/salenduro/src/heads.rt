// The head array that a host keeps: width, height, goal, the cart's cell, and the count of expanded cells of the last plan. (An array:
// C keeps it.)
ghost use Rattle.std.specs.Prelude.{◌≡◌, ◌≤◌, ◌<◌, length};
ghost use Rattle.salenduro.specs.Heads.{head_size, head_in, head_set, entry_set};

use model::{Changed, Head, Reason};

// Its entries, and the places of those that are set alone.
pub const HEAD_SIZE: usize = 5;

pub const CELL_AT: usize = 3;

pub const COUNT_AT: usize = 4;

pub fn head_in(head: &[usize]) -> Head
    requires { head_size ≤ length head.now }
    ensures { result ≡ head_in head.now }
{
    Head::new(head[0], head[1], head[2], head[CELL_AT])
}

// Layout and load, once accepted, set every entry.
pub fn set_head(head: &mut [usize], changed: Changed)
    requires { head_size ≤ length head.old }
    ensures { head.new ≡ head_set changed head.old }
{
    if changed.verdict.is_err() {
        return;
    }
    let next = changed.head;
    head[0] = next.width;
    head[1] = next.height;
    head[2] = next.goal;
    head[CELL_AT] = next.cell;
    head[COUNT_AT] = 0;
}

// Plan and move, once accepted, set one. (A verdict beside a number: a refusal hands back a head too.)
pub fn set_entry(head: &mut [usize], at: usize, verdict: Result<(), Reason>, v: usize)
    requires { at < length head.old }
    ensures { head.new ≡ entry_set verdict at v head.old }
{
    if verdict.is_ok() {
        head[at] = v;
    }
}
