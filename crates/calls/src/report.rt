// Report: a cell is blocked. Its link goes, and so does each neighbour's that pointed to it.
ghost use Rattle.std.specs.Prelude.{ℕ, ◌≡◌, false, ◌+◌, ◌<◌, ◌≤◌, length, Ok};
ghost use Rattle.model.specs.Lent.{after, lent_with};
ghost use Rattle.model.specs.Report.{report_check, unlinked, reported};
ghost use Rattle.calls.specs.Cuts.{cut_at};

use checks::report_check;
use grid::opposite;
use grid::plot::Plot;
use model::{Changed, Head, Reason};

// The link of y becomes 0 where it is d.
fn cut_at(link: &mut [u8], y: usize, d: u8)
    requires { y < length link.old }
    ensures { (n : ℕ) → y < n → link.new ≡ cut_at n y d link.old }
{
    if link[y] == d {
        link[y] = 0;
    }
}

// The links once c is blocked: its own goes, and of its neighbours' each that is the step back to c. (Directions are the bytes that C
// reads in link, and 0 is none. A plot is copied and links are lent, so they are no struct.)
fn unlink(link: &mut [u8], plot: Plot, c: usize)
    requires { (c < plot.cells) × (plot.cells ≤ length link.old) }
    ensures { link.new ≡ unlinked plot.width plot.height link.old c }
{
    let column = c % plot.width;
    link[c] = 0;
    for d in 1..=4 {
        if let Some(y) = plot.ahead(c, column, d) {
            cut_at(link, y, opposite(d));
        }
    }
}

// A report that is accepted: a free cell is blocked, and a cell known blocked changes nothing. Learned values stay, and are
// handed in for the contract alone. (Ground is bytes, 0 and 1: C lends it.)
pub fn block(head: Head, ground: &mut [u8], learned: &[u16], link: &mut [u8], c: usize) -> Changed
    requires { report_check head (lent_with ground.old learned.now link.old) c ≡ Ok tt }
    ensures { after result (lent_with ground.new learned.now link.new) ≡ reported head (lent_with ground.old learned.now link.old) c }
{
    if ground[c] == 0 {
        ground[c] = 1;
        unlink(link, Plot::new(head.width, head.height), c);
    }
    Changed {
        head,
        verdict: Ok(()),
    }
}

// Report: cell c is blocked.
pub fn report(head: Head, ground: &mut [u8], learned: &[u16], link: &mut [u8], c: usize) -> Changed
    ensures { after result (lent_with ground.new learned.now link.new)
        ≡ reported head (lent_with ground.old learned.now link.old) c }
{
    // (No `?`: the reason goes into an answer of the call's own.)
    if let Err(why) = report_check(head, ground, learned, link, c) {
        return Changed {
            head,
            verdict: Err(why),
        };
    }
    block(head, ground, learned, link, c)
}
