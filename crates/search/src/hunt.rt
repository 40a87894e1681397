// The search's loop: take the first of the queue, stop there or expand it, until nothing waits.
ghost use Rattle.std.specs.Prelude.{◌≡◌};
ghost use Rattle.model.specs.Lent.{lent_with};
ghost use Rattle.queue.specs.Queue.{QueueRoom};
ghost use Rattle.queue.specs.Same.{SameQueue};
ghost use Rattle.search.specs.LentLists.{scratch_of, SameScratch};
ghost use Rattle.search.specs.Hunt.{Huntable, Hunted};

use crate::expand::expand;
use crate::lent::Scratch;
use crate::stop::stops;
use grid::plot::Plot;
use model::Head;
use queue::Queue;

// The cell where a search stopped, none where nothing waits, and how many cells it expanded.
#[derive(Clone, Copy, Debug, PartialEq, Eq)]
pub struct End {
    pub at: Option<usize>,
    pub count: usize,
}

// The search of a plan, from a scratch that is begun. The cells that it expands are listed. (The memory and the list go apart: the
// working space has lent its other lists to the queue.)
pub fn hunt(
    head: Head,
    ground: &[u8],
    learned: &[u16],
    link: &[u8],
    scratch: &mut Scratch,
    queue: &mut Queue,
    gone: &mut [u8],
    list: &mut [u16],
) -> End
    requires huntable { Huntable head (lent_with ground.now learned.now link.now) queue.old.cells
        (scratch_of scratch.old) queue.old.heap.now queue.old.place.now gone.old list.old }
    requires waiting { queue.old.waiting ≡ 1 }
    ensures hunted { Hunted head (lent_with ground.now learned.now link.now) queue.old.cells
        (scratch_of scratch.old) result.at result.count (scratch_of scratch.new) list.new }
    ensures room { QueueRoom queue.old.cells queue.new.heap.now queue.new.place.now }
    ensures same { SameScratch scratch.old scratch.new × SameQueue queue.old queue.new }
{
    let plot = Plot::new(head.width, head.height);
    let mut count = 0;
    // (The queue ends it, so no range fits; the count is the next place in the list, and half of the answer.)
    while queue.waiting != 0 {
        let x = queue.first();
        if stops(plot, head.goal, learned, link, gone, x) {
            return End { at: Some(x), count };
        }
        expand(plot, ground, learned, scratch, queue, x);
        list[count] = x as u16;
        count += 1;
    }
    End { at: None, count }
}
