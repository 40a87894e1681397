// The calls of a C controller, over a record in the caller's bytes: load's checks, the call's own, its core, and the record
// rewritten. A refusal leaves every byte. Each holds room for 4,096 cells of its own. (So the arrays stand in each, and are no struct's.)
ghost use Rattle.std.specs.Prelude.{◌≡◌};
ghost use Rattle.model.specs.Numbers.{given_number};
ghost use Rattle.model.specs.Controller.{after_c, reported_c, planned_c, moved_c};

use crate::numbers::{plan_answer, refusal};
use calls::advance::onward;
use calls::report::block;
use checks::rest::report_rest;
use model::{Head, Reason};
use record::load::unpack;
use record::save::write_record;
use replan::replan;

fn report(bytes: &mut [u8], c: usize) -> Result<u32, Reason>
    ensures { after_c (given_number result) bytes.new ≡ reported_c bytes.old c }
{
    let mut ground = [0; Head::MAX_CELLS];
    let mut learned = [0; Head::MAX_CELLS];
    let mut link = [0; Head::MAX_CELLS];
    let head = unpack(bytes, &mut ground, &mut learned, &mut link)?;
    report_rest(head, c)?;
    block(head, &mut ground, &learned, &mut link, c);
    write_record(head, &ground, &learned, &link, bytes);
    Ok(0)
}

#[unsafe(no_mangle)]
pub extern "C" fn salenduro_report(bytes: &mut [u8], cell: u32) -> u32
    ensures { after_c result bytes.new ≡ reported_c bytes.old cell }
{
    report(bytes, cell as usize).unwrap_or_else(refusal)
}

fn plan(bytes: &mut [u8]) -> Result<u32, Reason>
    ensures { after_c (given_number result) bytes.new ≡ planned_c bytes.old }
{
    let mut ground = [0; Head::MAX_CELLS];
    let mut learned = [0; Head::MAX_CELLS];
    let mut link = [0; Head::MAX_CELLS];
    let head = unpack(bytes, &mut ground, &mut learned, &mut link)?;
    let mut mark = [0; Head::MAX_CELLS];
    let mut cost = [0; Head::MAX_CELLS];
    let mut trail = [0; Head::MAX_CELLS];
    let planned = replan(
        head,
        &ground,
        &mut learned,
        &mut link,
        &mut mark,
        &mut cost,
        &mut trail,
    );
    write_record(head, &ground, &learned, &link, bytes);
    Ok(plan_answer(planned.outcome))
}

#[unsafe(no_mangle)]
pub extern "C" fn salenduro_plan(bytes: &mut [u8]) -> u32
    ensures { after_c result bytes.new ≡ planned_c bytes.old }
{
    plan(bytes).unwrap_or_else(refusal)
}

fn advance(bytes: &mut [u8]) -> Result<u32, Reason>
    ensures { after_c (given_number result) bytes.new ≡ moved_c bytes.old }
{
    let mut ground = [0; Head::MAX_CELLS];
    let mut learned = [0; Head::MAX_CELLS];
    let mut link = [0; Head::MAX_CELLS];
    let given = unpack(bytes, &mut ground, &mut learned, &mut link)?;
    let moved = onward(given, &ground, &learned, &mut link);
    moved.verdict()?;
    write_record(moved.head, &ground, &learned, &link, bytes);
    Ok(moved.head.cell as u32)
}

#[unsafe(no_mangle)]
pub extern "C" fn salenduro_move(bytes: &mut [u8]) -> u32
    ensures { after_c result bytes.new ≡ moved_c bytes.old }
{
    advance(bytes).unwrap_or_else(refusal)
}
