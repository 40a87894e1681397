// What plan does after a stop: the learned values of the expanded cells rise, and links are set back along the trail.
ghost use Rattle.std.specs.Prelude.{◌≡◌, ℕ, ◌-◌, ◌<◌, ◌≤◌, List, length, get_or};
ghost use Rattle.model.specs.Plan.{raised, relinked};
ghost use Rattle.search.specs.Listed.{Listed};

use grid::opposite;
use grid::plot::Plot;
use search::Scratch;

// What is left of a route of this many steps at a cell of cost g. (Steps are a usize in the answer. A type for this one bound would be taken apart at once.)
fn left_at(steps: usize, g: u16) -> u16
    requires { steps < 65536 }
    ensures { result ≡ steps - g }
{
    steps.saturating_sub(g as usize) as u16
}

// The learned values after a search that found a route of this many steps and expanded the cells of the list: only these are
// written. (Marks say which cells those are, and nobody has to read them.)
pub fn raise(learned: &mut [u16], cost: &[u16], list: &[u16], steps: usize)
    requires small { steps < 65536 }
    requires listed { (n : ℕ) × (mark : List ℕ) × (n ≤ length learned.old) × (n ≤ length cost.now) × Listed n mark (length list.now) list.now }
    ensures { (n : ℕ) (mark : List ℕ) → n ≤ length learned.old → Listed n mark (length list.now) list.now
        → learned.new ≡ raised n steps learned.old mark cost.now }
{
    for x in list {
        let x = *x as usize;
        learned[x] = left_at(steps, cost[x]);
    }
}

// Links along the trail, back from c, whose cost is v. (Directions are the bytes that C reads in trail and link. A plot is copied and
// both are lent, so they are no struct.)
pub fn relink(plot: Plot, trail: &[u8], link: &mut [u8], v: usize, c: usize)
    requires { (c < plot.cells) × (plot.cells ≤ length trail.now) × (plot.cells ≤ length link.old) }
    ensures { link.new ≡ relinked plot.width plot.height trail.now v c link.old }
{
    let mut at = c;
    for _ in 0..v {
        let d = trail[at];
        let Some(b) = plot.ahead_of(at, opposite(d)) else {
            return;
        };
        link[b] = d;
        at = b;
    }
}

// Both, after a search that stopped at c.
pub(crate) fn improve(
    plot: Plot,
    learned: &mut [u16],
    link: &mut [u8],
    scratch: &Scratch,
    list: &[u16],
    steps: usize,
    c: usize,
)
    requires small { steps < 65536 }
    requires listed { (n : ℕ) × (mark : List ℕ) × (n ≤ length learned.old) × (n ≤ length scratch.now.cost.now)
        × Listed n mark (length list.now) list.now }
    requires sized { (c < plot.cells) × (plot.cells ≤ length scratch.now.cost.now) × (plot.cells ≤ length scratch.now.trail.now)
        × (plot.cells ≤ length link.old) }
    ensures learned { (n : ℕ) (mark : List ℕ) → n ≤ length learned.old → Listed n mark (length list.now) list.now
        → learned.new ≡ raised n steps learned.old mark scratch.now.cost.now }
    ensures link { link.new ≡ relinked plot.width plot.height scratch.now.trail.now (get_or scratch.now.cost.now c 0) c link.old }
{
    raise(learned, scratch.cost, list, steps);
    relink(plot, scratch.trail, link, usize::from(scratch.cost[c]), c);
}
