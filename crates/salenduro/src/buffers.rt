// The calls over buffers that a host keeps itself, with the head in an array of five entries (specs/Buffers). Each is the call
// of its name, with the head read before and written after; a refusal writes nothing, not there either. (The test of the head array
// stands in each: they are C's entry points, and each answers for itself.)
ghost use Rattle.std.specs.Prelude.{◌≡◌};
ghost use Rattle.model.specs.Lent.{lent_with, scratch_with};
ghost use Rattle.salenduro.specs.Buffers.{after_host, after_host_plan, after_host_fill, laid_out_host, reported_host, planned_host, moved_host};
ghost use Rattle.salenduro.specs.Buffers.{listed_host, question_host, saved_host, loaded_host};

use crate::heads::{CELL_AT, COUNT_AT, HEAD_SIZE, head_in, set_entry, set_head};
use crate::numbers::{
    changed_answer, given_number, move_answer, plan_answer, refusal, save_answer,
};
use calls::advance::advance;
use calls::layout::layout;
use calls::list::{list_cells, list_question};
use calls::plan::plan;
use calls::report::report;
use model::Reason;
use record::load::load;
use record::save::save;

#[unsafe(no_mangle)]
pub extern "C" fn salenduro_buffers_layout(
    width: usize,
    height: usize,
    start: usize,
    goal: usize,
    head: &mut [usize],
    ground: &mut [u8],
    learned: &mut [u16],
    link: &mut [u8],
) -> u32
    ensures { after_host result head.new (lent_with ground.new learned.new link.new)
        ≡ laid_out_host width height start goal head.old (lent_with ground.old learned.old link.old) }
{
    if head.len() < HEAD_SIZE {
        return refusal(Reason::Short);
    }
    let changed = layout(width, height, start, goal, ground, learned, link);
    set_head(head, changed);
    changed_answer(changed.verdict)
}

#[unsafe(no_mangle)]
pub extern "C" fn salenduro_buffers_report(
    head: &[usize],
    ground: &mut [u8],
    learned: &[u16],
    link: &mut [u8],
    cell: usize,
) -> u32
    ensures { after_host result head.now (lent_with ground.new learned.now link.new)
        ≡ reported_host head.now (lent_with ground.old learned.now link.old) cell }
{
    if head.len() < HEAD_SIZE {
        return refusal(Reason::Short);
    }
    let changed = report(head_in(head), ground, learned, link, cell);
    changed_answer(changed.verdict)
}

#[unsafe(no_mangle)]
pub extern "C" fn salenduro_buffers_plan(
    head: &mut [usize],
    ground: &[u8],
    learned: &mut [u16],
    link: &mut [u8],
    mark: &mut [u8],
    cost: &mut [u16],
    trail: &mut [u8],
) -> u32
    ensures { after_host_plan result head.new (lent_with ground.now learned.new link.new)
        (scratch_with mark.new cost.new trail.new)
        ≡ planned_host head.old (lent_with ground.now learned.old link.old)
        (scratch_with mark.old cost.old trail.old) }
{
    if head.len() < HEAD_SIZE {
        return refusal(Reason::Short);
    }
    let planned = plan(head_in(head), ground, learned, link, mark, cost, trail);
    let outcome = planned.outcome;
    set_entry(head, COUNT_AT, outcome.verdict(), planned.expanded);
    plan_answer(outcome)
}

#[unsafe(no_mangle)]
pub extern "C" fn salenduro_buffers_move(
    head: &mut [usize],
    ground: &[u8],
    learned: &[u16],
    link: &mut [u8],
) -> u32
    ensures { after_host result head.new (lent_with ground.now learned.now link.new)
        ≡ moved_host head.old (lent_with ground.now learned.now link.old) }
{
    if head.len() < HEAD_SIZE {
        return refusal(Reason::Short);
    }
    let moved = advance(head_in(head), ground, learned, link);
    let next = moved.head;
    set_entry(head, CELL_AT, moved.verdict(), next.cell);
    move_answer(next.cell, moved.step)
}

// (The bare number, as document 01 has the question answer.)
#[unsafe(no_mangle)]
pub extern "C" fn salenduro_buffers_question(
    head: &[usize],
    ground: &[u8],
    learned: &[u16],
    link: &[u8],
    list: &[u16],
) -> u32
    ensures { result ≡ question_host head.now (lent_with ground.now learned.now link.now) list.now }
{
    if head.len() < HEAD_SIZE {
        return Reason::Short.number() as u32;
    }
    list_question(head_in(head), ground, learned, link, list) as u32
}

// The number of cells that were written.
#[tactic(auto, using(crate::proofs::buffers::ListCases::list_cases))]
#[unsafe(no_mangle)]
pub extern "C" fn salenduro_buffers_list(
    head: &[usize],
    ground: &[u8],
    learned: &[u16],
    link: &[u8],
    list: &mut [u16],
) -> u32
    ensures { after_host_fill result list.new
        ≡ listed_host head.now (lent_with ground.now learned.now link.now) list.old }
{
    if head.len() < HEAD_SIZE {
        return refusal(Reason::Short);
    }
    given_number(list_cells(head_in(head), ground, learned, link, list))
}

#[unsafe(no_mangle)]
pub extern "C" fn salenduro_buffers_save(
    head: &[usize],
    ground: &[u8],
    learned: &[u16],
    link: &[u8],
    bytes: &mut [u8],
) -> u32
    ensures { after_host_fill result bytes.new
        ≡ saved_host head.now (lent_with ground.now learned.now link.now) bytes.old }
{
    if head.len() < HEAD_SIZE {
        return refusal(Reason::Short);
    }
    save_answer(save(head_in(head), ground, learned, link, bytes).length)
}

#[unsafe(no_mangle)]
pub extern "C" fn salenduro_buffers_load(
    bytes: &[u8],
    head: &mut [usize],
    ground: &mut [u8],
    learned: &mut [u16],
    link: &mut [u8],
) -> u32
    ensures { after_host result head.new (lent_with ground.new learned.new link.new)
        ≡ loaded_host bytes.now head.old (lent_with ground.old learned.old link.old) }
{
    if head.len() < HEAD_SIZE {
        return refusal(Reason::Short);
    }
    let read = load(bytes, ground, learned, link);
    set_head(head, read);
    changed_answer(read.verdict)
}
