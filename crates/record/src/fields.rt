// Readers of a field, each over the part that begins where the field begins. (n counts the cells of the plot, and is no length: hosts may
// lend longer lists, and of those that are written the rest stays.)
ghost use Rattle.std.specs.Prelude.{◌≡◌, ◌+◌, ◌*◌, ◌/◌, ◌≤◌, ◌<◌, length};
ghost use Rattle.model.specs.Lists.{filled};
ghost use Rattle.model.specs.Record.{ground_size, byte_of, big_of, bit_of};
ghost use Rattle.record.specs.Form.{begins, spare_clear};
ghost use Rattle.record.specs.Tags.{tag_byte};
ghost use Rattle.record.specs.Cells.{bit_at, big_at, byte_at, Spread, four_put};

use crate::places::Tag;

// Whether a part begins as a field of this tag and this many bytes does.
#[tactic(auto, using(crate::proofs::fields::Copied::bytes_test), unfolding(crate::specs::Form::begins))]
pub fn begins(part: &[u8], tag: Tag, size: usize) -> bool
    ensures { result ≡ begins (tag_byte tag) size part.now }
{
    3 <= part.len()
        && part[0] == tag.byte()
        && usize::from(u16::from_be_bytes([part[1], part[2]])) == size
}

// Byte k of the field with which a part begins, the two-byte number there, and bit k.
pub fn byte_of(part: &[u8], k: usize) -> u8
    requires { 3 + k < length part.now }
    ensures { result ≡ byte_of part.now k }
{
    part[3 + k]
}

pub fn big_of(part: &[u8], k: usize) -> u16
    requires { 4 + k < length part.now }
    ensures { result ≡ big_of part.now k }
{
    u16::from_be_bytes([byte_of(part, k), byte_of(part, k + 1)])
}

pub fn bit_of(part: &[u8], k: usize) -> u8
    requires { 3 + k / 8 < length part.now }
    ensures { result ≡ bit_of part.now k }
{
    (byte_of(part, k / 8) >> (k % 8)) % 2
}

// Whether the last byte of the ground field has no bit beyond the n cells.
#[tactic(auto, unfolding(crate::specs::Form::spare_clear))]
pub fn spare_clear(part: &[u8], n: usize) -> bool
    requires { 3 + ground_size n ≤ length part.now }
    ensures { result ≡ spare_clear n part.now }
{
    let used = n % 8;
    used == 0 || byte_of(part, n / 8) >> used == 0
}

// Bit k of v as byte k of four: v taken four times, each 7 bits up from the one before, has bit k at the foot of byte k. (For speed: a
// shift and a division a cell took five times as long.)
#[tactic(auto, using(crate::proofs::fields::SpreadBits::spread_is))]
fn spread(v: u32) -> u32
    requires { v < 16 }
    ensures { Spread v result }
{
    (v * 0x0020_4081) & 0x0101_0101
}

// The four bytes of x into the cells from c on, the lowest first.
#[tactic(auto, using(crate::proofs::fields::Copied::four_copied))]
fn put_four(ground: &mut [u8], c: usize, x: u32)
    requires { c + 4 ≤ length ground.old }
    ensures { ground.new ≡ four_put x c ground.old }
{
    ground[c..c + 4].copy_from_slice(&x.to_le_bytes());
}

// The first n entries of ground, learned and link, each out of the part that begins with its field. Ground goes by whole bytes of
// eight cells; the cells of a last byte that is not full go one by one.
pub fn read_ground(part: &[u8], ground: &mut [u8], n: usize)
    requires { (3 + ground_size n ≤ length part.now) × (n ≤ length ground.old) }
    ensures { ground.new ≡ filled n (bit_at part.now) ground.old }
{
    let whole = n / 8;
    for j in 0..whole {
        let byte = byte_of(part, j) as u32;
        let low = spread(byte % 16);
        let high = spread(byte / 16);
        put_four(ground, 8 * j, low);
        put_four(ground, 8 * j + 4, high);
    }
    for c in 8 * whole..n {
        ground[c] = bit_of(part, c);
    }
}

pub fn read_learned(part: &[u8], learned: &mut [u16], n: usize)
    requires { (3 + 2 * n ≤ length part.now) × (n ≤ length learned.old) }
    ensures { learned.new ≡ filled n (big_at part.now) learned.old }
{
    for c in 0..n {
        learned[c] = big_of(part, 2 * c);
    }
}

// (A loop here, and in save's put_field: std's copy of so many bytes as a run decides would have the archive for C need memmove.)
pub fn read_links(part: &[u8], link: &mut [u8], n: usize)
    requires { (3 + n ≤ length part.now) × (n ≤ length link.old) }
    ensures { link.new ≡ filled n (byte_at part.now) link.old }
{
    for c in 0..n {
        link[c] = byte_of(part, c);
    }
}
