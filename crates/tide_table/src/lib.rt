// A tide table (PANEL 14): the windows that a text says, one a line.
#![tactic(auto)]

ghost use Rattle.tide_table.specs.TideTable.{TableRead};

mod lines;
pub mod text;

// How many bytes of a text count.
const MOST_BYTES: usize = 32768;

// The number of the first line that is no window, and how many windows there are before it.
#[derive(Clone, Copy, Debug, PartialEq, Eq)]
pub struct BadLine {
    pub number: usize,
    pub windows: usize,
}

// The windows of a text as rows of three numbers, from the front of the lent rows on, as many as there is room for: how many there are, or the first line that is none.
pub fn read_table(text: &[u8], rows: &mut [[u32; 3]]) -> Result<usize, BadLine>
    ensures { TableRead text.now rows.old result rows.new }
{
    if text.len() <= MOST_BYTES {
        let whole = lines::read_lines(text, rows)?;
        return Ok(whole.windows);
    }
    let part = lines::read_lines(&text[..MOST_BYTES], rows)?;
    Err(BadLine {
        number: part.lines,
        windows: part.windows,
    })
}
