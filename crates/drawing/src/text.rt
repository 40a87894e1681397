// A drawing as it must look, and whether bytes look so.
ghost use Rattle.std.specs.Prelude.{◌≡◌, false, ◌+◌, ◌*◌, ◌≤◌, ◌<◌, length};
ghost use Rattle.model.specs.Lists.{gathered};
ghost use Rattle.model.specs.Plot.{bad_sides};
ghost use Rattle.model.specs.Head.{cells_of};
ghost use Rattle.model.specs.Record.{same};
ghost use Rattle.printing.specs.Pages.{Writes, SamePage};
ghost use Rattle.drawing.specs.Drawing.{character, row_text, text};
ghost use Rattle.drawing.specs.Reading.{drawn_as};

use model::Head;
use printing::Page;

// The rows of the largest plot, each with a line feed.
pub const ROWS: usize = Head::MAX_SIDE * (Head::MAX_SIDE + 1);

// Room for any drawing: four numbers of up to 20 digits, each with a character behind it, and the rows.
const ROOM: usize = 4 * 21 + ROWS;

fn character(truth: u8) -> u8
    ensures { result ≡ character truth }
{
    if truth == 0 { b'.' } else { b'#' }
}

// A row of the drawing. (It needs the plot's width alone, and `put_rows` the two sides.)
fn put_row(page: &mut Page<'_>, w: usize, truth: &[u8], row: usize)
    requires { (page.old.length + w < length page.old.bytes.now) × (row * w + w ≤ length truth.now) }
    ensures text { Writes (row_text w truth.now row) page.old page.new }
    ensures same { SamePage page.old page.new }
{
    let first = row * w;
    for cell in &truth[first..first + w] {
        page.put_byte(character(*cell));
    }
    page.put_byte(b'\n');
}

fn put_rows(page: &mut Page<'_>, w: usize, h: usize, truth: &[u8])
    requires { (page.old.length + h * (w + 1) ≤ length page.old.bytes.now) × (h * w ≤ length truth.now) }
    ensures text { Writes (gathered h (row_text w truth.now)) page.old page.new }
    ensures same { SamePage page.old page.new }
{
    for row in 0..h {
        put_row(page, w, truth, row);
    }
}

// Whether the bytes are the text of this drawing.
pub fn is_text(bytes: &[u8], head: Head, truth: &[u8]) -> bool
    requires { (bad_sides head.width head.height ≡ false) × (cells_of head ≤ length truth.now) }
    ensures { result ≡ same bytes.now (text (drawn_as head truth.now)) }
{
    let mut out = [0u8; ROOM];
    let mut page = Page {
        bytes: &mut out,
        length: 0,
    };
    page.put_number(head.width, b' ');
    page.put_number(head.height, b' ');
    page.put_number(head.cell, b' ');
    page.put_number(head.goal, b'\n');
    put_rows(&mut page, head.width, head.height, truth);
    bytes == page.text()
}
