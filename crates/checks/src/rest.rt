// What is left of a call's tests once its data are accepted: for whoever has loaded them. No entry points.
ghost use Rattle.std.specs.Prelude.{◌≡◌, ◌≤◌};
ghost use Rattle.model.specs.Plot.{max_cells};
ghost use Rattle.model.specs.Head.{cells_of};
ghost use Rattle.checks.specs.Rest.{report_rest};

use model::{Head, Reason};

// Report: 3 for the reported cell, and 5. (`report_check` asks the 5 too, behind another test for 3.)
#[tactic(auto, unfolding(crate::specs::Rest::report_rest))]
pub fn report_rest(head: Head, c: usize) -> Result<(), Reason>
    requires { cells_of head ≤ max_cells }
    ensures { result ≡ report_rest head c }
{
    if head.width * head.height <= c {
        return Err(Reason::Outside);
    }
    if c == head.cell {
        return Err(Reason::OwnCell);
    }
    Ok(())
}
