// Save: the record of a state, written field by field into lent bytes. The writer of a field is lent the part that begins
// where the field begins, and touches no byte after the field.
ghost use Rattle.std.specs.Prelude.{◌≡◌, [], ◌∷◌, ◌+◌, ◌*◌, ◌-◌, ◌<◌, ◌≤◌, min, length, take, Ok};
ghost use Rattle.model.specs.Lists.{gathered};
ghost use Rattle.model.specs.Lent.{fronted, lent_with};
ghost use Rattle.model.specs.Record.{big, field, ground_size, low_bits, ground_byte, learned_bytes, record_of};
ghost use Rattle.model.specs.Store.{after_save, saved_as, save_check, saved};
ghost use Rattle.record.specs.Tags.{tag_byte};
ghost use Rattle.record.specs.Written.{Packable, Headable, eight_bits, head_fields, pair_put};

use crate::places::{
    CELL_AT, GOAL_AT, GROUND_AT, HEIGHT_AT, Tag, ground_size, learned_at, link_at, record_length,
};
use checks::acceptance;
use model::{Head, Reason, Saved};

// The front of a field: its tag, and how many bytes follow.
fn put_front(part: &mut [u8], tag: Tag, size: usize)
    requires { (3 ≤ length part.old) × (size < 65536) }
    ensures { part.new ≡ fronted (tag_byte tag ∷ big size) part.old }
{
    let [high, low] = (size as u16).to_be_bytes();
    part[..3].copy_from_slice(&[tag.byte(), high, low]);
}

// A field of these bytes.
fn put_field(part: &mut [u8], tag: Tag, bytes: &[u8])
    requires { (length bytes.now < 65536) × (3 + length bytes.now ≤ length part.old) }
    ensures { part.new ≡ fronted (field (tag_byte tag) bytes.now) part.old }
{
    put_front(part, tag, bytes.len());
    for (i, byte) in bytes.iter().enumerate() {
        part[3 + i] = *byte;
    }
}

// A field of one number.
fn put_big(part: &mut [u8], tag: Tag, v: usize)
    requires { (5 ≤ length part.old) × (v < 65536) }
    ensures { part.new ≡ fronted (field (tag_byte tag) (big v)) part.old }
{
    put_field(part, tag, &(v as u16).to_be_bytes());
}

// The two bytes of x, the high one first.
#[tactic(auto, using(crate::proofs::save::FieldWritten::two_copied))]
fn put_pair(part: &mut [u8], at: usize, x: u16)
    requires { at + 2 ≤ length part.old }
    ensures { part.new ≡ pair_put x at part.old }
{
    part[at..at + 2].copy_from_slice(&x.to_be_bytes());
}

// The learned values of the first n cells, two bytes each.
fn put_learned(part: &mut [u8], learned: &[u16])
    requires { (2 * length learned.now < 65536) × (3 + 2 * length learned.now ≤ length part.old) }
    ensures { part.new ≡ fronted (field 6 (gathered (length learned.now) (learned_bytes learned.now))) part.old }
{
    put_front(part, Tag::Learned, 2 * learned.len());
    for (i, value) in learned.iter().enumerate() {
        put_pair(part, 3 + 2 * i, *value);
    }
}

// (Eight cells go by two products, for speed: a shift and a division a cell took five times as long.)

// Four cells as four bits, the first the lowest. In x they lie 8 bits apart; the product has x four times, each 7 bits lower than
// the one before, and so the four side by side from bit 24 on, where nothing else lies.
fn four_bits(a: u8, b: u8, c: u8, d: u8) -> u64
    requires { (a ≤ 1) × (b ≤ 1) × (c ≤ 1) × (d ≤ 1) }
    ensures bits { result ≡ a + 2 * b + 4 * c + 8 * d }
    ensures small { result < 16 }
{
    let x = u32::from_le_bytes([a, b, c, d]) as u64;
    x * 0x0102_0408 / 16777216 % 16
}

// A whole byte of the ground: the eight cells from c on.
#[tactic(auto, unfolding(crate::specs::Written::eight_bits))]
fn eight_bits(ground: &[u8], c: usize) -> u8
    requires { Packable (c + 8) ground.now }
    ensures { result ≡ eight_bits ground.now c }
{
    let low = four_bits(ground[c], ground[c + 1], ground[c + 2], ground[c + 3]);
    let high = four_bits(ground[c + 4], ground[c + 5], ground[c + 6], ground[c + 7]);
    (low + 16 * high) as u8
}

// Byte j of the ground: up to eight cells, the first in the lowest bit. The walk ends at the plot's last cell, and so the
// spare bits stay 0.
fn low_bits(ground: &[u8], n: usize, j: usize) -> u8
    requires { Packable n ground.now × (8 * j < n) × (n < 65536) }
    ensures { result ≡ low_bits n ground.now j 8 }
{
    let first = 8 * j;
    let count = (n - first).min(8);
    let mut byte = 0;
    let mut bit = 1;
    for m in 0..count {
        byte += ground[first + m] as usize * bit;
        bit += bit;
    }
    byte as u8
}

// The ground of the first n cells, one byte for eight of them: whole bytes first, and then one that is not full.
fn put_ground(part: &mut [u8], ground: &[u8], n: usize)
    requires { Packable n ground.now × (n < 65536) × (3 + ground_size n ≤ length part.old) }
    ensures { part.new ≡ fronted (field 5 (gathered (ground_size n) (ground_byte n ground.now))) part.old }
{
    let size = ground_size(n);
    let whole = n / 8;
    put_front(part, Tag::Ground, size);
    for j in 0..whole {
        part[3 + j] = eight_bits(ground, 8 * j);
    }
    if whole < size {
        part[3 + whole] = low_bits(ground, n, whole);
    }
}

// The head's four fields.
#[tactic(auto, using(crate::proofs::save::SaveCases::sides_low, model::proofs::Calls::Acceptance::cells_few))]
fn put_head(head: Head, buffer: &mut [u8])
    requires { Headable head buffer.old }
    ensures { buffer.new ≡ fronted (head_fields head) buffer.old }
{
    put_field(buffer, Tag::Width, &[head.width as u8]);
    put_field(&mut buffer[HEIGHT_AT..], Tag::Height, &[head.height as u8]);
    put_big(&mut buffer[GOAL_AT..], Tag::Goal, head.goal);
    put_big(&mut buffer[CELL_AT..], Tag::Cell, head.cell);
}

// The record of accepted data, into a buffer with room for it. It is save's core, and no entry point.
#[tactic(auto, using(crate::proofs::save::SaveCases::save_leaves))]
pub fn write_record(head: Head, ground: &[u8], learned: &[u16], link: &[u8], buffer: &mut [u8])
    requires { save_check head (lent_with ground.now learned.now link.now) buffer.old ≡ Ok tt }
    ensures { buffer.new ≡ fronted (record_of head (lent_with ground.now learned.now link.now))
        buffer.old }
{
    let n = head.width * head.height;
    let at_learned = learned_at(n);
    let at_link = link_at(n);
    put_head(head, buffer);
    put_ground(&mut buffer[GROUND_AT..], ground, n);
    put_learned(&mut buffer[at_learned..], &learned[..n]);
    put_field(&mut buffer[at_link..], Tag::Link, &link[..n]);
}

// Whether save is refused: the buffer is asked after the data.
#[tactic(auto, unfolding(model::specs::Store::save_check))]
fn save_check(
    head: Head,
    ground: &[u8],
    learned: &[u16],
    link: &[u8],
    buffer: &[u8],
) -> Result<(), Reason>
    ensures { result ≡ save_check head (lent_with ground.now learned.now link.now) buffer.now }
{
    acceptance(head, ground, learned, link)?;
    if buffer.len() < record_length(head.width * head.height) {
        return Err(Reason::Short);
    }
    Ok(())
}

// Writes the record, and answers its length. A refusal writes nothing.
#[tactic(auto, using(crate::proofs::save::SaveCases::save_few))]
fn save_record(
    head: Head,
    ground: &[u8],
    learned: &[u16],
    link: &[u8],
    buffer: &mut [u8],
) -> Result<usize, Reason>
    ensures { after_save (saved_as head result) buffer.new
        ≡ saved head (lent_with ground.now learned.now link.now) buffer.old }
{
    save_check(head, ground, learned, link, buffer)?;
    write_record(head, ground, learned, link, buffer);
    Ok(record_length(head.width * head.height))
}

// Save: the record's length for an answer.
pub fn save(head: Head, ground: &[u8], learned: &[u16], link: &[u8], buffer: &mut [u8]) -> Saved
    ensures { after_save result buffer.new ≡ saved head (lent_with ground.now learned.now link.now)
        buffer.old }
{
    Saved {
        head,
        length: save_record(head, ground, learned, link, buffer),
    }
}
