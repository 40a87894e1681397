// Load: the state that a record holds. `load` checks all before it writes; `unpack` is for lists that are the caller's own to spoil.
ghost use Rattle.std.specs.Prelude.{◌≡◌};
ghost use Rattle.model.specs.Plot.{max_cells};
ghost use Rattle.model.specs.Lent.{after, lent_with};
ghost use Rattle.model.specs.Head.{cells_of};
ghost use Rattle.model.specs.Fit.{Room};
ghost use Rattle.model.specs.Sound.{sound};
ghost use Rattle.model.specs.Record.{read_into, room_for};
ghost use Rattle.model.specs.Store.{load_check, loaded};
ghost use Rattle.record.specs.Load.{open_check, headed, answer_of, Opened, Unpacked};

use crate::form::{form_check, head_of, read_into};
use checks::sound::sound;
use model::{Changed, Head, Reason};

// What is asked of the bytes alone, refusals 8, 1, 8 and 3; and the head that they hold. (3 is one comparison: `checks` asks it between
// other tests.)
#[tactic(auto, using(crate::proofs::form::FormCases::form_formed, model::proofs::Calls::Acceptance::cells_few))]
fn open_record(bytes: &[u8]) -> Result<Head, Reason>
    ensures { result ≡ headed bytes.now (open_check bytes.now) }
{
    form_check(bytes)?;
    let head = head_of(bytes);
    let n = head.width * head.height;
    if n <= head.goal.max(head.cell) {
        return Err(Reason::Outside);
    }
    Ok(head)
}

// Reads the state of an opened record, and says whether it is sound.
fn read_sound(
    bytes: &[u8],
    head: Head,
    ground: &mut [u8],
    learned: &mut [u16],
    link: &mut [u8],
) -> bool
    requires { Opened head bytes.now × Room (cells_of head) (lent_with ground.old learned.old link.old) }
    ensures reads { lent_with ground.new learned.new link.new
        ≡ read_into (cells_of head) bytes.now (lent_with ground.old learned.old link.old) }
    ensures tells { result
        ≡ sound head (read_into (cells_of head) bytes.now (lent_with ground.old learned.old link.old)) }
{
    read_into(bytes, head.width * head.height, ground, learned, link);
    sound(head, ground, learned, link)
}

// Whether that state is sound, read into room of its own.
fn holds_sound(bytes: &[u8], head: Head) -> bool
    requires { Opened head bytes.now }
    ensures { result ≡ sound head (read_into (cells_of head) bytes.now (room_for max_cells)) }
{
    let mut ground: [u8; Head::MAX_CELLS] = [0; Head::MAX_CELLS];
    let mut learned: [u16; Head::MAX_CELLS] = [0; Head::MAX_CELLS];
    let mut link: [u8; Head::MAX_CELLS] = [0; Head::MAX_CELLS];
    read_sound(bytes, head, &mut ground, &mut learned, &mut link)
}

// What is asked of the bytes and of the lists; and the head. (The least of three lengths, as in `checks`.)
fn load_answer(bytes: &[u8], ground: &[u8], learned: &[u16], link: &[u8]) -> Result<Head, Reason>
    ensures { result ≡ headed bytes.now
        (load_check bytes.now (lent_with ground.now learned.now link.now)) }
{
    let opened = open_record(bytes)?;
    let room = ground.len().min(learned.len()).min(link.len());
    if room < opened.width * opened.height {
        return Err(Reason::Short);
    }
    if holds_sound(bytes, opened) {
        Ok(opened)
    } else {
        Err(Reason::Unsound)
    }
}

// Load. (No `?`: the reason goes into an answer of the call's own.)
pub fn load(bytes: &[u8], ground: &mut [u8], learned: &mut [u16], link: &mut [u8]) -> Changed
    ensures { after result (lent_with ground.new learned.new link.new)
        ≡ loaded bytes.now (lent_with ground.old learned.old link.old) }
{
    match load_answer(bytes, ground, learned, link) {
        Ok(opened) => {
            let n = opened.width * opened.height;
            read_into(bytes, n, ground, learned, link);
            Changed {
                head: opened,
                verdict: Ok(()),
            }
        }
        Err(why) => Changed {
            head: Head::none(),
            verdict: Err(why),
        },
    }
}

// Load's answer, and its state once accepted, into lists with room for every plot: the record is read once. What a refusal leaves
// in the lists is not said.
pub fn unpack(
    bytes: &[u8],
    ground: &mut [u8],
    learned: &mut [u16],
    link: &mut [u8],
) -> Result<Head, Reason>
    requires { Room max_cells (lent_with ground.old learned.old link.old) }
    ensures { Unpacked bytes.now (lent_with ground.old learned.old link.old)
        (answer_of result) (lent_with ground.new learned.new link.new) }
{
    let opened = open_record(bytes)?;
    if read_sound(bytes, opened, ground, learned, link) {
        Ok(opened)
    } else {
        Err(Reason::Unsound)
    }
}
