// Lay out: ground all free, learned the Manhattan distance to the goal, no links.
ghost use Rattle.std.specs.Prelude.{◌≡◌, false, ◌+◌, ◌<◌, ◌≤◌, length, Ok};
ghost use Rattle.model.specs.Lists.{filled};
ghost use Rattle.model.specs.Plot.{bad_sides, distance};
ghost use Rattle.model.specs.Lent.{after, lent_with};
ghost use Rattle.model.specs.Layout.{layout_check, laid_out};
ghost use Rattle.calls.specs.Rows.{row_filled};

use checks::layout_check;
use grid::plot::Plot;
use model::{Changed, Head, Reason};

// The distances in one row, from its first cell on: the row is this many rows from the goal's, and the goal stands in column
// col. No cell asks for a division. (Of the plot a row asks the width alone.)
fn fill_row(learned: &mut [u16], width: usize, first: usize, rows: usize, col: usize)
    requires { (first + width ≤ length learned.old) × (rows + width ≤ 65536) × (col < width) }
    ensures { learned.new ≡ row_filled first rows col width learned.old }
{
    for k in 0..width {
        learned[first + k] = (rows + col.abs_diff(k)) as u16;
    }
}

// The distances in all rows, one after the other.
fn fill_rows(learned: &mut [u16], plot: Plot, goal: usize)
    requires { (bad_sides plot.width plot.height ≡ false) × (goal < plot.cells) × (plot.cells ≤ length learned.old) }
    ensures { learned.new ≡ filled plot.cells (distance plot.width goal) learned.old }
{
    let goal_row = goal / plot.width;
    let goal_col = goal % plot.width;
    for row in 0..plot.height {
        let first = row * plot.width;
        fill_row(learned, plot.width, first, goal_row.abs_diff(row), goal_col);
    }
}

// A layout that is accepted: ground and links all 0, the distances, and the head. (Four numbers, here and below: layout is given no
// head, and no plot before its sides are tested.)
#[tactic(auto, using(model::proofs::Calls::LayoutLaws::layout_passed, model::proofs::Lists::Filled::part_length))]
pub fn lay_out(
    width: usize,
    height: usize,
    start: usize,
    goal: usize,
    ground: &mut [u8],
    learned: &mut [u16],
    link: &mut [u8],
) -> Changed
    requires { layout_check width height start goal (lent_with ground.old learned.old link.old) ≡ Ok tt }
    ensures { after result (lent_with ground.new learned.new link.new) ≡ laid_out width height start goal (lent_with ground.old learned.old link.old) }
{
    let plot = Plot::new(width, height);
    ground[..plot.cells].fill(0);
    fill_rows(learned, plot, goal);
    link[..plot.cells].fill(0);
    Changed {
        head: Head::new(width, height, goal, start),
        verdict: Ok(()),
    }
}

// Lay out: ground all free, learned the Manhattan distance to the goal, no links.
pub fn layout(
    width: usize,
    height: usize,
    start: usize,
    goal: usize,
    ground: &mut [u8],
    learned: &mut [u16],
    link: &mut [u8],
) -> Changed
    ensures { after result (lent_with ground.new learned.new link.new)
        ≡ laid_out width height start goal (lent_with ground.old learned.old link.old) }
{
    // (No `?`: the reason goes into an answer of the call's own.)
    if let Err(why) = layout_check(width, height, start, goal, ground, learned, link) {
        return Changed {
            head: Head::none(),
            verdict: Err(why),
        };
    }
    lay_out(width, height, start, goal, ground, learned, link)
}
