// Steps on the plot: `plot` has the plot itself, what lies ahead of a cell and where links lead, `routes` asks whether a
// route stands.

#![tactic(auto)]

pub mod plot;
pub mod routes;

ghost use Rattle.std.specs.Prelude.{◌≡◌};
ghost use Rattle.model.specs.Plot.{opposite};

// The opposite direction. (Directions are bytes of the C interface, in link and trail: 1 right, 2 down, 3 left, 4 up.)
pub fn opposite(d: u8) -> u8
    ensures { result ≡ opposite d }
{
    if d <= 2 { d + 2 } else { d - 2 }
}
