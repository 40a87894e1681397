// The tests of every call: whether it is refused, and why. Each takes every input and only reads; a call asks here once, and
// writes after. `sound` is the soundness test, `rest` what is left to ask of accepted data.

#![tactic(auto)]

pub mod rest;
pub mod sound;

ghost use Rattle.std.specs.Prelude.{◌≡◌};
ghost use Rattle.model.specs.Lent.{lent_with, scratch_with};
ghost use Rattle.model.specs.Refusals.{acceptance};
ghost use Rattle.model.specs.Layout.{layout_check};
ghost use Rattle.model.specs.Report.{report_check};
ghost use Rattle.model.specs.Plan.{plan_check};
ghost use Rattle.checks.specs.SharedTests.{fits_within, fits_with, check_with};

use crate::sound::sound;
use model::{Head, Reason};

// Refusals 1 to 3: room is the length of the shortest buffer, far the farthest cell that is named. One number for each, so
// that every call asks the same three questions. The product is taken once the sides are good: it fits then, and there is a plot.
#[tactic(auto, unfolding(model::specs::Refusals::fits, crate::specs::SharedTests::blank))]
fn fits_within(width: usize, height: usize, room: usize, far: usize) -> Result<(), Reason>
    ensures { result ≡ fits_within width height room far }
{
    if Head::bad_sides(width, height) {
        return Err(Reason::Sides);
    }
    let n = width * height;
    if room < n {
        return Err(Reason::Short);
    }
    if n <= far {
        return Err(Reason::Outside);
    }
    Ok(())
}

// The same, of what a call lends: spare is the length of the shortest further buffer, also one more cell that is named. (The least of
// three lengths, here and in `layout_check`: a function of three slices would be called in as many words.)
fn fits_with(
    head: Head,
    ground: &[u8],
    learned: &[u16],
    link: &[u8],
    spare: usize,
    also: usize,
) -> Result<(), Reason>
    ensures { result ≡ fits_with head (lent_with ground.now learned.now link.now) spare also }
{
    let room = spare.min(ground.len()).min(learned.len()).min(link.len());
    let far = also.max(head.goal).max(head.cell);
    fits_within(head.width, head.height, room, far)
}

// Refusals 1 to 4.
#[tactic(auto, unfolding(model::specs::Refusals::check))]
fn check_with(
    head: Head,
    ground: &[u8],
    learned: &[u16],
    link: &[u8],
    spare: usize,
    also: usize,
) -> Result<(), Reason>
    ensures { result ≡ check_with head (lent_with ground.now learned.now link.now) spare also }
{
    fits_with(head, ground, learned, link, spare, also)?;
    if sound(head, ground, learned, link) {
        Ok(())
    } else {
        Err(Reason::Unsound)
    }
}

// Whether the data are accepted. Nothing further is lent or named: ground and the goal, which are asked anyway, stand in.
pub fn acceptance(head: Head, ground: &[u8], learned: &[u16], link: &[u8]) -> Result<(), Reason>
    ensures { result ≡ acceptance head (lent_with ground.now learned.now link.now) }
{
    check_with(head, ground, learned, link, ground.len(), head.goal)
}

// Whether layout is refused. No head is given, and nothing that is lent has to be sound.
pub fn layout_check(
    width: usize,
    height: usize,
    start: usize,
    goal: usize,
    ground: &[u8],
    learned: &[u16],
    link: &[u8],
) -> Result<(), Reason>
    ensures { result ≡ layout_check width height start goal (lent_with ground.now learned.now link.now) }
{
    let room = ground.len().min(learned.len()).min(link.len());
    fits_within(width, height, room, goal.max(start))
}

// Whether report is refused: 5 comes last. (The one comparison stands in `rest` too, behind another test for 3.)
pub fn report_check(
    head: Head,
    ground: &[u8],
    learned: &[u16],
    link: &[u8],
    c: usize,
) -> Result<(), Reason>
    ensures { result ≡ report_check head (lent_with ground.now learned.now link.now) c }
{
    check_with(head, ground, learned, link, ground.len(), c)?;
    if c == head.cell {
        return Err(Reason::OwnCell);
    }
    Ok(())
}

// Whether plan is refused: scratch is lent too, list by list, as C lends it.
pub fn plan_check(
    head: Head,
    ground: &[u8],
    learned: &[u16],
    link: &[u8],
    mark: &[u8],
    cost: &[u16],
    trail: &[u8],
) -> Result<(), Reason>
    ensures { result ≡ plan_check head (lent_with ground.now learned.now link.now)
        (scratch_with mark.now cost.now trail.now) }
{
    let spare = mark.len().min(cost.len()).min(trail.len());
    check_with(head, ground, learned, link, spare, head.goal)
}
