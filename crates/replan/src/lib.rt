// The core of plan, over data that were accepted: the search, and where it stopped what is learned and relinked (`learn`).
// It is no entry point; the call is in crate `calls`.

#![tactic(auto)]

pub mod learn;

ghost use Rattle.std.specs.Prelude.{◌≡◌};
ghost use Rattle.model.specs.Head.{cells_of};
ghost use Rattle.model.specs.Lent.{lent_with, scratch_with};
ghost use Rattle.model.specs.Plan.{after_plan, answered, planned};
ghost use Rattle.search.specs.LentLists.{scratch_of, SameScratch, SameSpace, HasRoom};
ghost use Rattle.replan.specs.Passed.{Passed, CanPlan};

use crate::learn::improve;
use grid::plot::Plot;
use model::{Head, Outcome, Planned};
use search::{Scratch, Workspace, search};

fn answered(head: Head, expanded: usize, outcome: Outcome) -> Planned
    ensures { result ≡ answered head expanded outcome }
{
    Planned {
        head,
        expanded,
        outcome,
    }
}

// Document 01's plan once its tests have passed. Whoever plans often lends the working space too, the queue, the stop test's
// memory and the list of expanded cells. What it holds at first does not matter, and of it only the memory is cleared.
pub fn replan_with(
    head: Head,
    ground: &[u8],
    learned: &mut [u16],
    link: &mut [u8],
    scratch: &mut Scratch,
    space: &mut Workspace,
) -> Planned
    requires { CanPlan head (lent_with ground.now learned.old link.old) scratch.old space.old }
    ensures plan { after_plan result (lent_with ground.now learned.new link.new) (scratch_of scratch.new)
        ≡ planned head (lent_with ground.now learned.old link.old) (scratch_of scratch.old) }
    ensures room { HasRoom (cells_of head) space.new }
    ensures same { SameScratch scratch.old scratch.new × SameSpace space.old space.new }
{
    if head.cell == head.goal {
        return answered(head, 0, Outcome::Arrived);
    }
    let end = search(head, ground, learned, link, scratch, space);
    let count = end.count;
    let Some(at) = end.at else {
        return answered(head, count, Outcome::NoWay);
    };
    let plot = Plot::new(head.width, head.height);
    let walked = scratch.cost[at] as usize;
    let steps = walked + learned[at] as usize;
    improve(
        plot,
        learned,
        link,
        scratch,
        &space.list[..count],
        steps,
        at,
    );
    answered(head, count, Outcome::Route(steps))
}

// The same with a working space of its own, 52 KiB of stack, which is cleared. (Scratch comes list by list: so the call is lent it.)
pub fn replan(
    head: Head,
    ground: &[u8],
    learned: &mut [u16],
    link: &mut [u8],
    mark: &mut [u8],
    cost: &mut [u16],
    trail: &mut [u8],
) -> Planned
    requires { Passed head (lent_with ground.now learned.old link.old) (scratch_with mark.old cost.old trail.old) }
    ensures { after_plan result (lent_with ground.now learned.new link.new)
        (scratch_with mark.new cost.new trail.new)
        ≡ planned head (lent_with ground.now learned.old link.old)
        (scratch_with mark.old cost.old trail.old) }
{
    let mut scratch = Scratch { mark, cost, trail };
    let mut space = Workspace {
        heap: &mut [0; queue::ROOM],
        place: &mut [0; Head::MAX_CELLS],
        gone: &mut [0; Head::MAX_CELLS],
        list: &mut [0; Head::MAX_CELLS],
    };
    replan_with(head, ground, learned, link, &mut scratch, &mut space)
}
