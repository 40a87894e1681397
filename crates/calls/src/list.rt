// List the route, and its question. The data are tested first, then the route and the buffer.
ghost use Rattle.std.specs.Prelude.{◌≡◌, Ok};
ghost use Rattle.model.specs.Lent.{fronted, lent_with};
ghost use Rattle.model.specs.Route.{cells_from};
ghost use Rattle.model.specs.Listing.{list_check, listed, list_question};
ghost use Rattle.model.specs.Ways.{Accepts};
ghost use Rattle.calls.specs.RouteWritten.{Writable, RouteFilled};
ghost use Rattle.model.specs.Numbers.{length_verdict};
ghost use Rattle.calls.specs.Counted.{Counted, count_in};

use checks::acceptance;
use grid::plot::Plot;
use grid::routes::stands;
use model::{Head, Reason};

// Whether list is refused: the buffer is asked after the route. (The ground is lent for the contract alone, here and below.)
fn list_rest(
    head: Head,
    ground: &[u8],
    learned: &[u16],
    link: &[u8],
    buffer: &[u16],
) -> Result<(), Reason>
    requires { Accepts head (lent_with ground.now learned.now link.now) }
    ensures { result ≡ list_check head (lent_with ground.now learned.now link.now) buffer.now }
{
    let steps = learned[head.cell] as usize;
    let stood = stands(head, learned, link);
    if !stood {
        return Err(Reason::NoRoute);
    }
    if buffer.len() <= steps {
        return Err(Reason::Short);
    }
    Ok(())
}

// The cells on v steps along links, from c on, into the front of the buffer. (A plot is copied and links are lent, so they are no struct.)
fn follow(plot: Plot, link: &[u8], buffer: &mut [u16], v: usize, c: usize)
    requires { Writable plot.width plot.height v c link.now buffer.old }
    ensures { buffer.new ≡ fronted (cells_from plot.width plot.height link.now v c) buffer.old }
{
    let mut at = c;
    for i in 0..v {
        buffer[i] = at as u16;
        at = plot.ahead_of(at, link[at]).unwrap();
    }
    buffer[v] = at as u16;
}

// The route's cells into the front of the buffer, and how many they are. A second walk: the first asked whether it stands.
pub fn fill_route(
    head: Head,
    ground: &[u8],
    learned: &[u16],
    link: &[u8],
    buffer: &mut [u16],
) -> usize
    requires { list_check head (lent_with ground.now learned.now link.now) buffer.old ≡ Ok tt }
    ensures { RouteFilled head (lent_with ground.now learned.now link.now) buffer.old result buffer.new }
{
    let steps = learned[head.cell] as usize;
    let plot = Plot::new(head.width, head.height);
    follow(plot, link, buffer, steps, head.cell);
    steps + 1
}

// Whether list is refused, and why.
#[tactic(auto, using(crate::proofs::list::ListCounts::list_refused))]
fn list_check(
    head: Head,
    ground: &[u8],
    learned: &[u16],
    link: &[u8],
    buffer: &[u16],
) -> Result<(), Reason>
    ensures { result ≡ list_check head (lent_with ground.now learned.now link.now) buffer.now }
{
    acceptance(head, ground, learned, link)?;
    list_rest(head, ground, learned, link, buffer)
}

// The question: nothing is written. (A number and no Result: document 01 answers so, and C is handed it on.)
pub fn list_question(
    head: Head,
    ground: &[u8],
    learned: &[u16],
    link: &[u8],
    buffer: &[u16],
) -> usize
    ensures { result ≡ list_question head (lent_with ground.now learned.now link.now) buffer.now }
{
    match list_check(head, ground, learned, link, buffer) {
        Ok(()) => 0,
        Err(why) => why.number(),
    }
}

// List with the front's length for an answer, or why it is refused.
#[tactic(auto, using(crate::proofs::list::ListCounts::listed_none, crate::proofs::list::ListCounts::listed_filled))]
pub fn list_cells(
    head: Head,
    ground: &[u8],
    learned: &[u16],
    link: &[u8],
    buffer: &mut [u16],
) -> Result<usize, Reason>
    ensures verdict { length_verdict result ≡ list_check head (lent_with ground.now learned.now link.now) buffer.old }
    ensures counted { Counted head (lent_with ground.now learned.now link.now) buffer.old (count_in result) buffer.new }
{
    list_check(head, ground, learned, link, buffer)?;
    Ok(fill_route(head, ground, learned, link, buffer))
}

// The same, with 0 where it is refused: so that the whole buffer afterwards can be told. (A number: this call never failed.)
pub fn list_count(
    head: Head,
    ground: &[u8],
    learned: &[u16],
    link: &[u8],
    buffer: &mut [u16],
) -> usize
    ensures { Counted head (lent_with ground.now learned.now link.now) buffer.old result buffer.new }
{
    list_cells(head, ground, learned, link, buffer).unwrap_or(0)
}

// List: the filled front of that same buffer, from its first entry on. A part that is handed back takes the buffer with it,
// so that the promise can't name the entries after it: `list_count`, which writes them, does. (No Result: document 01 has a refused
// list return only its empty front.)
pub fn list<'a>(
    head: Head,
    ground: &[u8],
    learned: &[u16],
    link: &[u8],
    buffer: &'a mut [u16],
) -> &'a mut [u16]
    ensures { (result.now ≡ (listed head (lent_with ground.now learned.now link.now) buffer.old).front) × (result.ref_ptr ≡ buffer.entry.ref_ptr) }
{
    let count = list_count(head, ground, learned, link, buffer);
    &mut buffer[..count]
}
