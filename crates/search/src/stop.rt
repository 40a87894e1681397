// The stop test with its memory: a cell once walked without reaching the goal never leads there during this search, since
// links and learned values stay. So all stop tests of one search together walk each cell once.
ghost use Rattle.search.specs.Memory.{Gone, Tested, Testable};

use grid::plot::Plot;

// Whether links lead from c to the goal with the learned value falling by exactly 1 at each step. Cells walked are marked
// in gone; where the goal is reached the search is over, and the marks with it.
pub fn stops(
    plot: Plot,
    goal: usize,
    learned: &[u16],
    link: &[u8],
    gone: &mut [u8],
    c: usize,
) -> bool
    requires testable { Testable plot.width plot.height plot.cells c learned.now link.now gone.old }
    requires gone { Gone plot.width plot.height goal learned.now link.now gone.old }
    ensures { Tested plot.width plot.height goal learned.now link.now c result gone.new }
{
    let mut at = c;
    let mut left = learned[c];
    // (A walk: a `for` over what is left would ask for the goal twice, in the loop and after it. `Plot::leads` is the same without the
    // memory; what both do at a cell is `descend`.)
    while at != goal {
        if gone[at] != 0 {
            return false;
        }
        gone[at] = 1;
        let Some(next) = plot.descend(learned, link, at, left) else {
            return false;
        };
        at = next;
        left -= 1;
    }
    true
}
