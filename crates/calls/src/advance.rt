// Move, which is a word of the language: the cart goes one step along its route.
ghost use Rattle.std.specs.Prelude.{◌≡◌};
ghost use Rattle.model.specs.Lent.{after, lent_with};
ghost use Rattle.model.specs.Move.{moved};
ghost use Rattle.model.specs.Ways.{Accepts};

use checks::acceptance;
use grid::plot::Plot;
use model::{Head, Moved, Reason, Step};

// Move. (The ground is not asked: sound links lead to free cells. Link 0 is none: C reads it.)
pub fn onward(head: Head, ground: &[u8], learned: &[u16], link: &mut [u8]) -> Moved
    requires { Accepts head (lent_with ground.now learned.now link.old) }
    ensures { after result (lent_with ground.now learned.now link.new) ≡ moved head (lent_with ground.now learned.now link.old) }
{
    let cell = head.cell;
    if cell == head.goal {
        return Moved {
            head,
            step: Ok(Step::Arrived),
        };
    }
    let plot = Plot::new(head.width, head.height);
    if !plot.leads(head.goal, learned, link, cell) {
        return Moved {
            head,
            step: Err(Reason::NoRoute),
        };
    }
    let next = plot.ahead_of(cell, link[cell]).unwrap();
    link[cell] = 0;
    Moved {
        head: head.moved_to(next),
        step: Ok(Step::Moved),
    }
}

// Move, which is a word of the language: the cart goes one step along its route.
pub fn advance(head: Head, ground: &[u8], learned: &[u16], link: &mut [u8]) -> Moved
    ensures { after result (lent_with ground.now learned.now link.new)
        ≡ moved head (lent_with ground.now learned.now link.old) }
{
    // (No `?`: the reason goes into an answer of the call's own.)
    if let Err(why) = acceptance(head, ground, learned, link) {
        return Moved {
            head,
            step: Err(why),
        };
    }
    onward(head, ground, learned, link)
}
