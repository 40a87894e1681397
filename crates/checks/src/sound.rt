// Whether the data are sound, by flat passes over all cells that LLVM vectorises: no loop has an exit. A pass looks at
// neighbouring places of the buffers, and a mark tells where a row ends between them. n counts cells or pairs, and is no length:
// the buffers that hosts lend may be longer than the plot. Marks and directions are numbers, since they meet bytes that C lends.
ghost use Rattle.std.specs.Prelude.{ℕ, Bool, ◌≡◌, ◌+◌, ◌-◌, ◌*◌, ◌≤◌, ◌<◌, length, get_or, leb};
ghost use Rattle.model.specs.Lists.{every};
ghost use Rattle.model.specs.Plot.{gap};
ghost use Rattle.model.specs.Lent.{lent_with};
ghost use Rattle.model.specs.Head.{cells_of};
ghost use Rattle.model.specs.Sound.{sound};
ghost use Rattle.checks.specs.Given.{Given};
ghost use Rattle.checks.specs.Passes.{AnswersBelow, AgreesBelow};
ghost use Rattle.checks.specs.Flat.{cell_test, cell_at, small_at, near_test, near_at, lead_test, lead_at, pairs, edge_test, edge_at, alone, InRows};
ghost use Rattle.checks.specs.Flat.{Paired, Clear, EndsMarked};

use model::Head;

// Directions, as they stand in the links that C lends: any byte may.
const RIGHT: u8 = 1;

const DOWN: u8 = 2;

const LEFT: u8 = 3;

const UP: u8 = 4;

// Whether each number below n passes. The loop has no exit, so that it is compiled to vectors.
fn every<F: Fn(usize) -> bool>(n: usize, test: F) -> bool
    requires { AnswersBelow n (F.pre test) }
    ensures { (t : ℕ → Bool) → AgreesBelow n (F.post test) t → result ≡ every n t }
{
    let mut ok = true;
    for i in 0..n {
        ok &= test(i);
    }
    ok
}

// A cell's own bytes: ground is 0 or 1, the link at most 4, and one of them 0.
#[tactic(auto, unfolding(crate::specs::Flat::cell_test))]
fn cell_test(g: u8, k: u8) -> bool
    ensures { result ≡ cell_test g k }
{
    (g <= 1) & (k <= 4) & ((k == 0) | (g == 0))
}

fn cells_ok(ground: &[u8], link: &[u8], n: usize) -> bool
    requires { (n ≤ length ground.now) × (n ≤ length link.now) }
    ensures { result ≡ every n (cell_at ground.now link.now) }
{
    every(n, |i| cell_test(ground[i], link[i]))
}

// Each learned value is at most top. The bound is as wide as the values, so that they are compared as they lie.
fn small_ok(learned: &[u16], top: u16, n: usize) -> bool
    requires { n ≤ length learned.now }
    ensures { result ≡ every n (small_at top learned.now) }
{
    every(n, |i| learned[i] <= top)
}

// Two learned values differ by at most 1.
fn close_ok(a: u16, b: u16) -> bool
    ensures { result ≡ leb (gap a b) 1 }
{
    a.abs_diff(b) <= 1
}

// Cells a and b, where e is 0 unless a row ends between them: both free and of one row, they are near in learned value.
#[tactic(auto, unfolding(crate::specs::Flat::near_test))]
fn near_test(ga: u8, gb: u8, e: u8, la: u16, lb: u16) -> bool
    ensures { result ≡ near_test ga gb e la lb }
{
    (0 < ga) | (0 < gb) | (0 < e) | close_ok(la, lb)
}

// Where direction `to` leads from a to b and `from`, its opposite, back: a link between them leads to a free cell, over no row's end.
// (Step, to and from go together from `pairs` to here alone, and each pass takes them apart.)
#[tactic(auto, unfolding(crate::specs::Flat::lead_test))]
fn lead_test(ga: u8, gb: u8, e: u8, ka: u8, kb: u8, to: u8, from: u8) -> bool
    ensures { result ≡ lead_test ga gb e ka kb to from }
{
    ((ka != to) | ((gb == 0) & (e == 0))) & ((kb != from) | ((ga == 0) & (e == 0)))
}

// Pairs of cells that are `step` places apart. Bytes and learned values are passed over one after the other: a pass of bytes
// alone has twice the lanes.
fn nears_ok(ground: &[u8], learned: &[u16], end: &[u8], step: usize, n: usize) -> bool
    requires { (n + step ≤ length ground.now) × (n + step ≤ length learned.now) × (n ≤ length end.now) }
    ensures { result ≡ every n (near_at step ground.now learned.now end.now) }
{
    every(
        n,
        |i| near_test(
            ground[i],
            ground[i + step],
            end[i],
            learned[i],
            learned[i + step],
        ),
    )
}

fn leads_ok(ground: &[u8], link: &[u8], end: &[u8], step: usize, to: u8, from: u8, n: usize) -> bool
    requires { (n + step ≤ length ground.now) × (n + step ≤ length link.now) × (n ≤ length end.now) }
    ensures { result ≡ every n (lead_at step to from ground.now link.now end.now) }
{
    every(
        n,
        |i| lead_test(
            ground[i],
            ground[i + step],
            end[i],
            link[i],
            link[i + step],
            to,
            from,
        ),
    )
}

#[tactic(auto, unfolding(crate::specs::Flat::pairs))]
fn pairs(
    ground: &[u8],
    learned: &[u16],
    link: &[u8],
    end: &[u8],
    step: usize,
    to: u8,
    from: u8,
    n: usize,
) -> bool
    requires { Paired step n ground.now learned.now link.now end.now }
    ensures { result ≡ pairs step to from n ground.now learned.now link.now end.now }
{
    nears_ok(ground, learned, end, step, n) & leads_ok(ground, link, end, step, to, from, n)
}

// No link leads up from the first row, or down from the last.
#[tactic(auto, unfolding(crate::specs::Flat::edge_test))]
fn edge_test(first: u8, last: u8) -> bool
    ensures { result ≡ edge_test first last }
{
    (first != UP) & (last != DOWN)
}

fn edges_ok(link: &[u8], low: usize, w: usize) -> bool
    requires { low + w ≤ length link.now }
    ensures { result ≡ every w (edge_at low link.now) }
{
    every(w, |i| edge_test(link[i], link[low + i]))
}

// Writes 1 at the last cell of each of h rows. (Two numbers of a plot, here and below: both are taken apart at once.)
fn mark_ends(end: &mut [u8], w: usize, h: usize)
    requires { (0 < w) × (h * w ≤ length end.old) × Clear end.old }
    ensures { EndsMarked w h end.new }
{
    for row in 0..h {
        end[row * w + (w - 1)] = 1;
    }
}

// The pairs of a cell and the next one; end is 1 at the last cell of a row. That 1 is the step: a compiler that knows the step
// carries half of each vector over to the next iteration, which takes longer than to load it again.
fn right_pairs(ground: &[u8], learned: &[u16], link: &[u8], end: &[u8], w: usize, n: usize) -> bool
    requires { (0 < w) × (w ≤ n) × (n ≤ length end.now) × (get_or end.now (w - 1) 0 ≡ 1)
        × Paired 1 (n - 1) ground.now learned.now link.now end.now }
    ensures { result ≡ pairs 1 1 3 (n - 1) ground.now learned.now link.now end.now }
{
    let step = end[w - 1] as usize;
    pairs(ground, learned, link, end, step, RIGHT, LEFT, n - 1)
}

// What is asked of cells one by one.
#[tactic(auto, unfolding(crate::specs::Flat::alone))]
fn alone(head: Head, ground: &[u8], learned: &[u16], link: &[u8]) -> bool
    requires { InRows head.width (cells_of head) head.goal head.cell ground.now learned.now link.now }
    ensures { result ≡ alone head.width (cells_of head) head.goal head.cell ground.now learned.now link.now }
{
    let w = head.width;
    let n = w * head.height;
    let own = cells_ok(ground, link, n) & small_ok(learned, (n - 1) as u16, n);
    let edges = edges_ok(link, n - w, w) & (link[0] != LEFT) & (link[n - 1] != RIGHT);
    let here = (ground[head.cell] == 0) & (learned[head.goal] == 0) & (link[head.goal] == 0);
    own & edges & here
}

// Whether the data are sound. No row ends between a cell and the one below it: those pairs go first, while no end is marked.
pub fn sound(head: Head, ground: &[u8], learned: &[u16], link: &[u8]) -> bool
    requires { Given head ground.now learned.now link.now }
    ensures { result ≡ sound head (lent_with ground.now learned.now link.now) }
{
    let w = head.width;
    let h = head.height;
    let n = w * h;
    let mut end: [u8; Head::MAX_CELLS] = [0; Head::MAX_CELLS];
    let below = pairs(ground, learned, link, &end, w, DOWN, UP, n - w);
    mark_ends(&mut end, w, h);
    let right = right_pairs(ground, learned, link, &end, w, n);
    alone(head, ground, learned, link) & (right & below)
}
