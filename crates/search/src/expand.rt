// An expansion: the cell goes out of the queue and looks at its neighbours, which come in or are lowered there.
ghost use Rattle.std.specs.Prelude.{◌≡◌, true, false, ◌<◌, ◌≤◌, length, get_or};
ghost use Rattle.model.specs.Plot.{free};
ghost use Rattle.model.specs.Search.{reached, expanded};
ghost use Rattle.queue.specs.Queue.{cell, Absent, Waits, Lowered};
ghost use Rattle.queue.specs.Same.{SameQueue};
ghost use Rattle.search.specs.LentLists.{scratch_of, SameScratch};
ghost use Rattle.search.specs.Waiting.{looked_at};
ghost use Rattle.search.specs.Agreeing.{Agree, Became};

use crate::lent::{Mark, Scratch};
use grid::plot::Plot;
use queue::{Queue, key_of};

// (That queue and scratch agree is a `requires` and no ghost field: a struct of references owes one at each write, and
// between the writes of `reach` they do not agree.)

// The key of a cell comes in, or is lowered where the cell waits. (A flag and no closure: the one caller has it at hand.)
fn put(queue: &mut Queue, waits: bool, v: u64)
    requires there { waits ≡ true → Waits queue.old.cells queue.old.waiting queue.old.heap.now queue.old.place.now v }
    requires away { waits ≡ false → Absent queue.old.cells queue.old.waiting queue.old.heap.now queue.old.place.now v }
    ensures keys { Lowered queue.old.cells queue.old.waiting queue.old.heap.now queue.old.place.now v
        queue.new.waiting queue.new.heap.now queue.new.place.now }
    ensures same { SameQueue queue.old queue.new }
{
    if waits {
        queue.lower(v);
    } else {
        queue.push(v);
    }
}

// Cell y is reached at cost g by direction d, and waits.
fn reach(learned: &[u16], scratch: &mut Scratch, queue: &mut Queue, y: usize, g: u16, d: u8)
    requires inside { y < queue.old.cells }
    requires cheaper { (g ≤ get_or scratch.old.cost.now y 0) × (get_or scratch.old.cost.now y 0 < 65536) }
    requires agree { Agree learned.now scratch.old queue.old }
    ensures reached { Became learned.now (reached y g d (scratch_of scratch.old)) scratch.new queue.new }
    ensures same { SameScratch scratch.old scratch.new × SameQueue queue.old queue.new }
{
    let k = key_of(g, learned[y], y as u16);
    let waits = scratch.mark[y] == Mark::Waiting as u8;
    scratch.mark[y] = Mark::Waiting as u8;
    scratch.cost[y] = g;
    scratch.trail[y] = d;
    put(queue, waits, k);
}

// A look at cell y, reached at cost g by direction d.
fn look_at(
    ground: &[u8],
    learned: &[u16],
    scratch: &mut Scratch,
    queue: &mut Queue,
    y: usize,
    g: u32,
    d: u8,
)
    requires inside { (y < queue.old.cells) × (queue.old.cells ≤ length ground.now) }
    requires agree { Agree learned.now scratch.old queue.old }
    ensures looked { Became learned.now (looked_at ground.now queue.old.cells y g d (scratch_of scratch.old)) scratch.new queue.new }
    ensures same { SameScratch scratch.old scratch.new × SameQueue queue.old queue.new }
{
    if ground[y] != 0 {
        return;
    }
    let cost = scratch.cost[y];
    if cost as u32 <= g {
        return;
    }
    reach(learned, scratch, queue, y, g as u16, d);
}

// Cell x, the first of the queue, is expanded. (Directions are the bytes that C reads in trail.)
pub fn expand(
    plot: Plot,
    ground: &[u8],
    learned: &[u16],
    scratch: &mut Scratch,
    queue: &mut Queue,
    x: usize,
)
    requires sides { queue.old.cells ≡ plot.cells }
    requires first { (1 ≤ queue.old.waiting) × (x ≡ cell queue.old.heap.now 1) }
    requires stands { (plot.cells ≤ length ground.now) × (free ground.now x ≡ true) }
    requires agree { Agree learned.now scratch.old queue.old }
    ensures expanded { Became learned.now (expanded plot.width plot.height ground.now x (scratch_of scratch.old)) scratch.new queue.new }
    ensures same { SameScratch scratch.old scratch.new × SameQueue queue.old queue.new }
{
    let g = scratch.cost[x] as u32 + 1;
    let column = x % plot.width;
    scratch.mark[x] = Mark::Expanded as u8;
    queue.pop();
    for d in 1..=4 {
        if let Some(y) = plot.ahead(x, column, d) {
            look_at(ground, learned, scratch, queue, y, g, d);
        }
    }
}
