// Answers as document 01's numbers, a refusal n being 70,000 + n. Accepted lengths and cells are far below 2^32.
// No entry points. (Numbers and no enums: they are what C is answered.)
ghost use Rattle.std.specs.Prelude.{◌≡◌, ◌<◌};
ghost use Rattle.model.specs.Numbers.{refusal, changed_answer, plan_answer, move_answer, given_number};

use model::{Outcome, Reason, Step};

// A refusal's number comes on top of this.
pub const REFUSED: u32 = 70000;

pub fn refusal(why: Reason) -> u32
    ensures { result ≡ refusal why }
{
    REFUSED + why.number() as u32
}

// What a call gives, or the refusal.
pub fn given_number(given: Result<usize, Reason>) -> u32
    requires { given_number given < 4294967296 }
    ensures { result ≡ given_number given }
{
    match given {
        Ok(n) => n as u32,
        Err(why) => refusal(why),
    }
}

pub fn plan_answer(outcome: Outcome) -> u32
    requires { plan_answer outcome < 4294967296 }
    ensures { result ≡ plan_answer outcome }
{
    match outcome {
        Outcome::Route(steps) => steps as u32,
        Outcome::NoWay => 65535,
        Outcome::Arrived => 0,
        Outcome::Refused(why) => refusal(why),
    }
}

pub fn changed_answer(verdict: Result<(), Reason>) -> u32
    ensures { result ≡ changed_answer verdict }
{
    given_number(verdict.map(|()| 0))
}

pub fn move_answer(cell: usize, step: Result<Step, Reason>) -> u32
    requires { move_answer cell step < 4294967296 }
    ensures { result ≡ move_answer cell step }
{
    given_number(step.map(|_| cell))
}

pub fn save_answer(length: Result<usize, Reason>) -> u32
    requires { given_number length < 4294967296 }
    ensures { result ≡ given_number length }
{
    given_number(length)
}
