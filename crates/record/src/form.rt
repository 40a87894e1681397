// Whether bytes are a record in form, field by field, and the head and the cells that they hold. A reader of a field (`fields`)
// is lent the part that begins where the field begins. That the tests are document 01's form is `formed_is` in proofs/form/FormIs.
ghost use Rattle.std.specs.Prelude.{◌≡◌, ◌≤◌, length};
ghost use Rattle.model.specs.Plot.{max_cells};
ghost use Rattle.model.specs.Lent.{lent_with};
ghost use Rattle.model.specs.Fit.{Room};
ghost use Rattle.model.specs.Record.{ground_at, record_length, head_of, read_into};
ghost use Rattle.record.specs.Form.{sides_test, rest_test, form_check};

use crate::fields::{begins, big_of, byte_of, read_ground, read_learned, read_links, spare_clear};
use crate::places::{
    CELL_AT, GOAL_AT, GROUND_AT, HEIGHT_AT, Tag, WIDTH_AT, ground_size, learned_at, link_at,
    record_length,
};
use model::{Head, Reason};

// Whether the first two fields are in form.
#[tactic(auto, unfolding(crate::specs::Form::sides_test))]
fn sides_test(bytes: &[u8]) -> bool
    ensures { result ≡ sides_test bytes.now }
{
    if bytes.len() < GOAL_AT {
        return false;
    }
    begins(&bytes[WIDTH_AT..], Tag::Width, 1) && begins(&bytes[HEIGHT_AT..], Tag::Height, 1)
}

// Whether the rest is, of a record of n cells, and nothing comes after.
#[tactic(auto, unfolding(crate::specs::Form::rest_test))]
fn rest_test(bytes: &[u8], n: usize) -> bool
    requires { n ≤ max_cells }
    ensures { result ≡ rest_test n bytes.now }
{
    if bytes.len() != record_length(n) {
        return false;
    }
    let at_learned = learned_at(n);
    let at_link = link_at(n);
    begins(&bytes[GOAL_AT..], Tag::Goal, 2)
        && begins(&bytes[CELL_AT..], Tag::Cell, 2)
        && begins(&bytes[GROUND_AT..], Tag::Ground, ground_size(n))
        && spare_clear(&bytes[GROUND_AT..], n)
        && begins(&bytes[at_learned..], Tag::Learned, 2 * n)
        && begins(&bytes[at_link..], Tag::Link, n)
}

// The head that a record holds. (The sides are read here and in `form_check`: the form needs them before it is known that there is a head.)
#[tactic(auto, unfolding(model::specs::Record::head_of))]
pub fn head_of(bytes: &[u8]) -> Head
    requires { ground_at ≤ length bytes.now }
    ensures { result ≡ head_of bytes.now }
{
    let width = byte_of(&bytes[WIDTH_AT..], 0).into();
    let height = byte_of(&bytes[HEIGHT_AT..], 0).into();
    let goal = big_of(&bytes[GOAL_AT..], 0).into();
    let cell = big_of(&bytes[CELL_AT..], 0).into();
    Head::new(width, height, goal, cell)
}

// The first n entries of ground, learned and link, out of a record of n cells.
pub fn read_into(bytes: &[u8], n: usize, ground: &mut [u8], learned: &mut [u16], link: &mut [u8])
    requires { (n ≤ max_cells) × (length bytes.now ≡ record_length n) × Room n (lent_with ground.old learned.old link.old) }
    ensures { lent_with ground.new learned.new link.new
        ≡ read_into n bytes.now (lent_with ground.old learned.old link.old) }
{
    let at_learned = learned_at(n);
    let at_link = link_at(n);
    read_ground(&bytes[GROUND_AT..], ground, n);
    read_learned(&bytes[at_learned..], learned, n);
    read_links(&bytes[at_link..], link, n);
}

// Refusals 8 for the first two fields, 1, and 8 for the rest. The product is taken once the sides are good: it fits then.
#[tactic(auto, using(crate::proofs::form::FormCases::sides_long, model::proofs::Calls::Acceptance::cells_few))]
pub fn form_check(bytes: &[u8]) -> Result<(), Reason>
    ensures { result ≡ form_check bytes.now }
{
    if !sides_test(bytes) {
        return Err(Reason::Form);
    }
    let width = byte_of(&bytes[WIDTH_AT..], 0) as usize;
    let height = byte_of(&bytes[HEIGHT_AT..], 0) as usize;
    if Head::bad_sides(width, height) {
        return Err(Reason::Sides);
    }
    if rest_test(bytes, width * height) {
        Ok(())
    } else {
        Err(Reason::Form)
    }
}
