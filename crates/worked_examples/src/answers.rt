// Printing what a call answers.
use model::{Outcome, Reason, Step};
use std::io;

fn refused(rt: &impl Print, why: Reason) -> io::Result<()> {
    print!(rt; " refused {}", why.number())
}

pub(crate) fn verdict(rt: &impl Print, verdict: Result<(), Reason>) -> io::Result<()> {
    match verdict {
        Ok(()) => print!(rt; " accepted"),
        Err(why) => refused(rt, why),
    }
}

pub(crate) fn outcome(rt: &impl Print, outcome: Outcome) -> io::Result<()> {
    match outcome {
        Outcome::Route(steps) => print!(rt; " length {steps}"),
        Outcome::NoWay => print!(rt; " no way"),
        Outcome::Arrived => print!(rt; " arrived"),
        Outcome::Refused(why) => refused(rt, why),
    }
}

// Cell is where the cart then is.
pub(crate) fn step(rt: &impl Print, step: Result<Step, Reason>, cell: usize) -> io::Result<()> {
    match step {
        Ok(Step::Moved) => print!(rt; " on {cell}"),
        Ok(Step::Arrived) => print!(rt; " arrived"),
        Err(why) => refused(rt, why),
    }
}
