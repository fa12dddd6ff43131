// The lines of a tide table.
ghost use Rattle.std.specs.Prelude.{◌≡◌, ◌≤◌, length};
ghost use Rattle.tide_table.specs.TideTable.{line_says, most_bytes};
ghost use Rattle.tide_table.specs.Reading.{line_for, line_by, LinesRead};

use crate::BadLine;
use crate::text::{Sought, Word, find, next_word};
use words::entries::store;

// What a line says: nothing that counts, a window by its row, or something that cannot be read.
#[derive(Clone, Copy)]
pub(crate) enum Line {
    Nothing,
    Window([u32; 3]),
    Unclear,
}

// What a line says by the four words that it may begin with.
fn words_say(a: Word, b: Word, c: Word, d: Word) -> Line
    ensures { result ≡ line_by a b c d }
{
    match (a, b, c, d) {
        (Word::Missing, _, _, _) => Line::Nothing,
        (Word::Number(position), Word::Number(first), Word::Number(end), Word::Missing) => {
            Line::Window([position, first, end])
        }
        _ => Line::Unclear,
    }
}

// What a line says.
fn line_says(line: &[u8]) -> Line
    ensures { result ≡ line_for (line_says line.now) }
{
    if line.starts_with(b"#") {
        return Line::Nothing;
    }
    let (a, at) = next_word(line, 0);
    let (b, at) = next_word(line, at);
    let (c, at) = next_word(line, at);
    let (d, _) = next_word(line, at);
    words_say(a, b, c, d)
}

// How many windows and how many lines a text has.
#[derive(Clone, Copy)]
pub(crate) struct Counts {
    pub windows: usize,
    pub lines: usize,
}

// Reads the lines of a text up to the first that is unclear, and stores the rows of the windows.
pub(crate) fn read_lines(text: &[u8], rows: &mut [[u32; 3]]) -> Result<Counts, BadLine>
    requires { length text.now ≤ most_bytes }
    ensures { LinesRead text.now rows.old result rows.new }
{
    let mut at = 0;
    let mut number = 1;
    let mut count = 0;
    loop {
        let end = find(text, at, Sought::LineEnd);
        match line_says(&text[at..end]) {
            Line::Nothing => {}
            Line::Window(row) => {
                store(rows, count, row);
                count += 1;
            }
            Line::Unclear => {
                return Err(BadLine {
                    number,
                    windows: count,
                });
            }
        }
        if text.len() <= end {
            return Ok(Counts {
                windows: count,
                lines: number,
            });
        }
        at = end + 1;
        number += 1;
    }
}
