// Plan: the tests, and then the core in crate `replan`.
ghost use Rattle.std.specs.Prelude.{◌≡◌};
ghost use Rattle.model.specs.Lent.{lent_with, scratch_with};
ghost use Rattle.model.specs.Plan.{after_plan, planned};

use checks::plan_check;
use model::{Head, Outcome, Planned, Reason};
use replan::replan;

// Plan: the way from the cart's cell to the goal over cells not known blocked, and what is learned on it. (Mark, cost and trail are three
// parameters here: C lends them one by one.)
pub fn plan(
    head: Head,
    ground: &[u8],
    learned: &mut [u16],
    link: &mut [u8],
    mark: &mut [u8],
    cost: &mut [u16],
    trail: &mut [u8],
) -> Planned
    ensures { after_plan result (lent_with ground.now learned.new link.new)
        (scratch_with mark.new cost.new trail.new)
        ≡ planned head (lent_with ground.now learned.old link.old)
        (scratch_with mark.old cost.old trail.old) }
{
    // (No `?`: the reason goes into an answer of the call's own.)
    if let Err(why) = plan_check(head, ground, learned, link, mark, cost, trail) {
        return Planned {
            head,
            expanded: 0,
            outcome: Outcome::Refused(why),
        };
    }
    replan(head, ground, learned, link, mark, cost, trail)
}
