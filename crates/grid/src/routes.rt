// Whether the cart's route stands.
ghost use Rattle.std.specs.Prelude.{◌≡◌, []};
ghost use Rattle.model.specs.Lent.{lent_with};
ghost use Rattle.model.specs.Route.{stands};
ghost use Rattle.grid.specs.Walkable.{Walkable};

use crate::plot::Plot;
use model::Head;

// Whether the cart's route stands. The ground is not asked: sound links lead to free cells.
pub fn stands(head: Head, learned: &[u16], link: &[u8]) -> bool
    requires { Walkable head.width head.height head.cell learned.now link.now }
    ensures { result ≡ stands head (lent_with [] learned.now link.now) }
{
    Plot::new(head.width, head.height).leads(head.goal, learned, link, head.cell)
}
