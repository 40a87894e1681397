// The drawing of a plot: whether some bytes are one, and what it shows. A drawing is read loosely, and written out again as it
// must look; the bytes are a drawing where the two are the same.

#![tactic(auto)]

pub mod text;

ghost use Rattle.std.specs.Prelude.{◌≡◌, true, ◌<◌, ◌≤◌, ◌*◌, length};
ghost use Rattle.model.specs.Lists.{filled};
ghost use Rattle.model.specs.Plot.{max_cells};
ghost use Rattle.drawing.specs.Drawing.{is_digit, grown, value, behind, truth_at, truth_in, drawing_in, Drew};
ghost use Rattle.drawing.specs.Reading.{on_plot};

use crate::text::is_text;
use grid::plot::Plot;
use model::Head;

// (Std's, by a name of its own, which has the drawing's definition.)
fn is_digit(byte: u8) -> bool
    ensures { result ≡ is_digit byte }
{
    byte.is_ascii_digit()
}

// One digit more.
fn grown(value: usize, byte: u8) -> usize
    requires { (is_digit byte ≡ true) × (value < 100000) }
    ensures { (result ≡ grown value byte) × (result < 100000) }
{
    if value < 10000 {
        value * 10 + usize::from(byte - b'0')
    } else {
        value
    }
}

// The number at the front, and what comes behind it and one character more. (No `parse`: any bytes are read, and loosely.)
fn number(bytes: &[u8]) -> (usize, &[u8])
    ensures value { result.0 ≡ value 0 bytes.now }
    ensures rest { result.1.now ≡ behind bytes.now }
{
    let mut value = 0;
    let mut rest = bytes;
    while let Some((&byte, behind)) = rest.split_first() {
        if !is_digit(byte) {
            return (value, behind);
        }
        value = grown(value, byte);
        rest = behind;
    }
    (value, rest)
}

// The head that the first line says, and the rows.
fn first_line(bytes: &[u8]) -> (Head, &[u8])
    ensures head { result.0 ≡ (drawing_in bytes.now).head }
    ensures rows { result.1.now ≡ behind (behind (behind (behind bytes.now))) }
{
    let (width, rest) = number(bytes);
    let (height, rest) = number(rest);
    let (start, rest) = number(rest);
    let (goal, rows) = number(rest);
    (Head::new(width, height, goal, start), rows)
}

// Whether goal and cart stand on a plot of good sides. (Of bytes that may say anything: `checks` asks it of what a call names.)
#[tactic(auto, using(model::proofs::Calls::Acceptance::cells_few), unfolding(crate::specs::Reading::on_plot))]
fn on_plot(head: Head) -> bool
    ensures { result ≡ on_plot head }
{
    if Head::bad_sides(head.width, head.height) {
        return false;
    }
    let n = head.width * head.height;
    head.goal < n && head.cell < n
}

// 1 where a place has a `#`. What is missing reads as free.
fn truth_at(rows: &[u8], at: usize) -> u8
    ensures { result ≡ truth_at rows.now at }
{
    match rows.get(at) {
        Some(b'#') => 1,
        _ => 0,
    }
}

// The true ground of a plot, out of rows of its width and a line feed.
fn fill_truth(rows: &[u8], plot: Plot, truth: &mut [u8])
    requires { plot.cells ≤ length truth.old }
    ensures { truth.new ≡ filled plot.cells (truth_in plot.width rows.now) truth.old }
{
    for c in 0..plot.cells {
        truth[c] = truth_at(rows, c + c / plot.width);
    }
}

// The plot with the cart on the start, and its true ground in truth; or none, where the bytes are no drawing. (Truth is in bytes, as the
// ground that C lends, and of any length that serves: an array would ask for just so many.)
pub fn read(bytes: &[u8], truth: &mut [u8]) -> Option<Head>
    requires { max_cells ≤ length truth.old }
    ensures { Drew bytes.now result truth.new }
{
    let (head, rows) = first_line(bytes);
    if !on_plot(head) {
        return None;
    }
    fill_truth(rows, Plot::new(head.width, head.height), truth);
    if truth[head.cell] != 0 {
        return None;
    }
    if is_text(bytes, head, truth) {
        return Some(head);
    }
    None
}
