// The turn of the drive over a drawn plot (look, report, end, move, plan), which says one line. That every drive ends is
// `turn_falls` in proofs/EveryDriveEnds.

#![tactic(auto)]

ghost use Rattle.std.specs.Prelude.{◌≡◌, ◌<◌, ◌≤◌, length};
ghost use Rattle.model.specs.Head.{cells_of};
ghost use Rattle.search.specs.LentLists.{HasRoom, SameSpace};
ghost use Rattle.grid.specs.CellOn.{cell_on};
ghost use Rattle.turn.specs.Turn.{unknown_ahead, sighting, says, plan_line, turn};
ghost use Rattle.turn.specs.Held.{drive_of, CanPlan, SameDrive};
ghost use Rattle.turn.specs.Sighting.{InSight};

use calls::advance::onward;
use calls::report::block;
use grid::plot::Plot;
use model::{Head, Outcome};
use printing::lines::Line;
use replan::replan_with;
use search::{Scratch, Workspace};

// What a drive holds from line to line: the cart with its plot, the moves that it made, and what the calls are lent.
#[derive(Drop)]
pub struct Drive<'a> {
    pub head: Head,
    pub moves: usize,
    pub ground: &'a mut [u8],
    pub learned: &'a mut [u16],
    pub link: &'a mut [u8],
    pub scratch: Scratch<'a>,
}

// The neighbour in direction d where it is blocked and not known to be.
fn unknown_ahead(head: Head, truth: &[u8], ground: &[u8], d: u8) -> Option<usize>
    requires { InSight head truth.now ground.now }
    ensures { result ≡ cell_on (cells_of head) (unknown_ahead head truth.now ground.now d) }
{
    let plot = Plot::new(head.width, head.height);
    let c = plot.ahead_of(head.cell, d)?;
    if truth[c] != 1 {
        return None;
    }
    if ground[c] != 0 {
        return None;
    }
    Some(c)
}

// The first such neighbour in direction order. (Directions are the bytes that C reads in link and trail.)
fn sighting(head: Head, truth: &[u8], ground: &[u8]) -> Option<usize>
    requires { InSight head truth.now ground.now }
    ensures { result ≡ cell_on (cells_of head) (sighting head truth.now ground.now) }
{
    (1..=4).find_map(|d| unknown_ahead(head, truth, ground, d))
}

// A plan's line. (No From: a plan and a line are types of other crates.)
fn plan_line(outcome: Outcome, expanded: usize) -> Line
    ensures { result ≡ plan_line outcome expanded }
{
    match outcome {
        Outcome::Route(length) => Line::Plan { length, expanded },
        Outcome::NoWay | Outcome::Arrived | Outcome::Refused(_) => Line::NoWay(expanded),
    }
}

impl<'a> Drive<'a> {
    // One turn, over data that were accepted: look and report, or end, or move, or plan. A move that finds no route says so, and
    // leaves everything: then a plan is made.
    pub fn turn(&mut self, truth: &[u8], space: &mut Workspace<'_>) -> Line
        requires planable { CanPlan self.old space.old }
        requires truth { cells_of self.old.head ≤ length truth.now }
        requires moves { self.old.moves < 18446744073709551615 }
        ensures line { says result (drive_of self.new) ≡ turn truth.now (drive_of self.old) }
        ensures room { HasRoom (cells_of self.new.head) space.new }
        ensures same { SameDrive self.old self.new × SameSpace space.old space.new }
    {
        let head = self.head;
        // (Each list by a name of its own: the check does not follow two that are lent out of the struct at once.)
        let ground = &mut *self.ground;
        let learned = &mut *self.learned;
        let link = &mut *self.link;
        if let Some(c) = sighting(head, truth, ground) {
            block(head, ground, learned, link, c);
            return Line::Blocked(c);
        }
        if head.cell == head.goal {
            return Line::Arrived(self.moves);
        }
        let moved = onward(head, ground, learned, link);
        if moved.step.is_ok() {
            let next = moved.head;
            self.head = next;
            self.moves += 1;
            return Line::Move(next.cell);
        }
        let planned = replan_with(head, ground, learned, link, &mut self.scratch, space);
        plan_line(planned.outcome, planned.expanded)
    }
}
