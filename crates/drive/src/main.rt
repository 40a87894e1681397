// Drives a cart over a drawn plot: reads the drawing from standard input, and writes what the drive says, line by line.

#![tactic(auto)]

ghost use Rattle.std.specs.Prelude.{◌≡◌, ◌+◌, ◌≤◌, length, Ok, OnOk};
ghost use Rattle.model.specs.Plot.{max_cells};
ghost use Rattle.model.specs.Plan.{plan_check};
ghost use Rattle.search.specs.LentLists.{scratch_of};
ghost use Rattle.printing.specs.Lines.{longest_line};
ghost use Rattle.printing.specs.Pages.{SamePage};
ghost use Rattle.turn.specs.Held.{lent_of, SameDrive};

use calls::layout::layout;
use checks::plan_check;
use drawing::read;
use drawing::text::ROWS;
use model::Head;
use printing::Page;
use printing::lines::Line;
use reading::read_full;
use search::{Scratch, Workspace};
use std::io;
use turn::Drive;

// The longest drawing: "64 64 4095 4095" and a line feed, and the rows.
const LONGEST: usize = 16 + ROWS;

// So many bytes may wait to be written.
const WAITING: usize = 8192;

// Writes what waits on the page where there may be no room for one more line. (That its text lies in its bytes is asked here and by
// `text` alone: every put asks for more.)
fn flush(rt: &impl Print, page: &mut Page<'_>) -> io::Result<()>
    requires { (page.old.length ≤ length page.old.bytes.now) × (longest_line ≤ length page.old.bytes.now) }
    ensures room { OnOk result (page.new.length + longest_line ≤ length page.new.bytes.now) }
    ensures bytes { page.new.bytes.now ≡ page.old.bytes.now }
    ensures same { SamePage page.old page.new }
{
    if page.bytes.len() - Line::LONGEST < page.length {
        rt.write_all(page.text())?;
        page.length = 0;
    }
    Ok(())
}

// Turn by turn, until a line is the last one. The data were accepted, and stay so. (Truth is of any length that serves, as in `read`.)
fn tell(rt: &impl Print, drive: &mut Drive<'_>, truth: &[u8]) -> io::Result<()>
    requires accepted { plan_check drive.old.head (lent_of drive.old) (scratch_of drive.old.scratch) ≡ Ok tt }
    requires truth { max_cells ≤ length truth.now }
    requires moves { drive.old.moves ≡ 0 }
    ensures same { SameDrive drive.old drive.new }
{
    let mut heap = [0u64; queue::ROOM];
    let mut place = [0u16; Head::MAX_CELLS];
    let mut gone = [0u8; Head::MAX_CELLS];
    let mut list = [0u16; Head::MAX_CELLS];
    let mut space = Workspace {
        heap: &mut heap,
        place: &mut place,
        gone: &mut gone,
        list: &mut list,
    };
    let mut out = [0u8; WAITING];
    let mut page = Page {
        bytes: &mut out,
        length: 0,
    };
    loop {
        let line = drive.turn(truth, &mut space);
        page.put_line(line);
        flush(rt, &mut page)?;
        if line.is_last() {
            break;
        }
    }
    rt.write_all(page.text())
}

// A cart that knows nothing of the ground: soundness is tested once, and then the cores are used. (Arrays for the largest plot, here and
// above: there is no heap.)
fn run(rt: &impl Print, head: Head, truth: &[u8]) -> io::Result<()>
    requires { max_cells ≤ length truth.now }
{
    let mut ground = [0u8; Head::MAX_CELLS];
    let mut learned = [0u16; Head::MAX_CELLS];
    let mut link = [0u8; Head::MAX_CELLS];
    let mut mark = [0u8; Head::MAX_CELLS];
    let mut cost = [0u16; Head::MAX_CELLS];
    let mut trail = [0u8; Head::MAX_CELLS];
    let laid = layout(
        head.width,
        head.height,
        head.cell,
        head.goal,
        &mut ground,
        &mut learned,
        &mut link,
    );
    let head = laid.head;
    if plan_check(head, &ground, &learned, &link, &mark, &cost, &trail).is_err() {
        return Ok(());
    }
    let scratch = Scratch {
        mark: &mut mark,
        cost: &mut cost,
        trail: &mut trail,
    };
    let mut drive = Drive {
        head,
        moves: 0,
        ground: &mut ground,
        learned: &mut learned,
        link: &mut link,
        scratch,
    };
    tell(rt, &mut drive, truth)
}

fn main(rt: HostRuntime) -> io::Result<()> {
    let mut bytes = [0u8; LONGEST + 1];
    let mut truth = [0u8; Head::MAX_CELLS];
    let got = read_full(&mut rt.stdin(), &mut bytes)?;
    if got <= LONGEST
        && let Some(head) = read(&bytes[..got], &mut truth)
    {
        return run(&rt, head, &truth);
    }
    println!(rt; "bad input")
}
