// Runs document 01's worked examples P1 to P9 and its edges through the calls: the file stdin is a script of them, and the file
// stdout is that script with what each call answers and what it leaves in the buffers.

#![tactic(auto)]

mod answers;
mod calling;
mod lending;
mod script;
mod show;
mod state;

use lending::Lending;
use model::Head;
use reading::read_full;
use script::Order;
use show::text;
use state::State;
use std::io;

fn obey(rt: &impl Print, s: &mut State, order: Order) -> io::Result<()> {
    match order {
        Order::Note => Ok(()),
        Order::Fresh(lending) => {
            *s = State::fresh(lending, 99, 999);
            Ok(())
        }
        Order::Zeros(lending) => {
            *s = State::fresh(lending, 0, 0);
            Ok(())
        }
        Order::Head(head) => {
            s.head = head;
            Ok(())
        }
        Order::Cell {
            c,
            ground,
            learned,
            link,
        } => {
            s.set_cell(c, ground, learned, link);
            Ok(())
        }
        Order::Layout {
            width,
            height,
            start,
            goal,
        } => s.layout(rt, width, height, start, goal),
        Order::Report(c) => s.report(rt, c),
        Order::Plan => s.plan(rt),
        Order::Move => s.advance(rt),
        Order::Question => s.list(rt),
        Order::Entries(n) => s.tell_entries(rt, n),
    }
}

// The head, where it is another than before.
fn tell(rt: &impl Print, before: Head, head: Head) -> io::Result<()> {
    if before == head {
        return Ok(());
    }
    print!(rt;
        "; head {} {} {} {}",
        head.width, head.height, head.goal, head.cell
    )
}

// A line is printed with what comes of it, and whether any entry of a buffer is then another.
fn obey_line(rt: &impl Print, s: &mut State, line: &[u8]) -> io::Result<()> {
    text(rt, line)?;
    let given = s.head;
    let sum = s.checksum(rt, 0)?;
    obey(rt, s, Order::from(line))?;
    tell(rt, given, s.head)?;
    if sum != s.checksum(rt, 0)? {
        text(rt, b"; changed")?;
    }
    text(rt, b"\n")
}

fn run(rt: &impl Print, script: &[u8]) -> io::Result<()> {
    let nothing = Lending {
        room: 0,
        short: None,
    };
    let mut s = State::fresh(nothing, 0, 0);
    for line in script.split_inclusive(|byte| *byte == b'\n') {
        obey_line(rt, &mut s, line.strip_suffix(b"\n").unwrap_or(line))?;
    }
    Ok(())
}

fn main(rt: HostRuntime) -> io::Result<()> {
    let mut space = [0u8; 16384];
    let n = read_full(&mut rt.stdin(), &mut space)?;
    if n == 16384 {
        return text(&rt, b"the script is too long\n");
    }
    run(&rt, &space[..n])
}
