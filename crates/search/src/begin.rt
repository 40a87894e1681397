// How a search begins: every cell is unseen but the cart's own, which waits alone.
ghost use Rattle.std.specs.Prelude.{◌≡◌, ◌≤◌, length};
ghost use Rattle.model.specs.Lists.{filled, each};
ghost use Rattle.model.specs.Search.{begun, unseen_cost};
ghost use Rattle.queue.specs.Same.{SameQueue};
ghost use Rattle.search.specs.LentLists.{scratch_of, SameScratch};
ghost use Rattle.search.specs.Agreeing.{Became};
ghost use Rattle.search.specs.Begin.{CanBegin};

use crate::lent::{Mark, Scratch};
use queue::{Queue, key_of};

// The cost of an unseen cell, which is the largest (C reads it), in the first n entries. (A loop and no `fill`, so that a body that leaves
// entries out can be tried: `every_second_unseen`.)
fn unsee(cost: &mut [u16], n: usize)
    requires { n ≤ length cost.old }
    ensures { cost.new ≡ filled n (each unseen_cost) cost.old }
{
    for c in 0..n {
        cost[c] = u16::MAX;
    }
}

// Scratch as a search begins, and a queue of the cart's cell. (Each list goes by a name of its own: where a part of it is lent straight
// out of the struct, as `scratch.mark[..n]`, the check forgets what the list holds. Trail 0 is none: C reads it. Learned is read and the
// others are written, here and in `expand`: a struct around the three would owe that they agree.)
pub fn begin(cell: usize, learned: &[u16], scratch: &mut Scratch, queue: &mut Queue)
    requires { CanBegin queue.old.cells cell learned.now (scratch_of scratch.old) queue.old.heap.now queue.old.place.now }
    ensures begun { Became learned.now (begun queue.old.cells cell (scratch_of scratch.old)) scratch.new queue.new }
    ensures waiting { queue.new.waiting ≡ 1 }
    ensures same { SameScratch scratch.old scratch.new × SameQueue queue.old queue.new }
{
    let n = queue.cells;
    let mark = &mut *scratch.mark;
    let cost = &mut *scratch.cost;
    let trail = &mut *scratch.trail;
    mark[..n].fill(Mark::Unseen as u8);
    unsee(cost, n);
    trail[..n].fill(0);
    mark[cell] = Mark::Waiting as u8;
    cost[cell] = 0;
    queue.heap[0] = 0;
    queue.waiting = 0;
    let k = key_of(0, learned[cell], cell as u16);
    queue.push(k);
}
