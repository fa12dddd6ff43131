// Words and decimal numbers in a text.
ghost use Rattle.std.specs.Prelude.{◌≡◌, ◌+◌, drop};
ghost use Rattle.tide_table.specs.Text.{is_blank, is_digit};
ghost use Rattle.tide_table.specs.Reading.{is_sought, count_before, NumberRead, WordRead};

// By a kind, not by a closure: the definition is_sought says what each kind is.
// What is looked for in a text: a line end, a blank, or a byte that is no blank.
#[derive(Clone, Copy)]
pub(crate) enum Sought {
    LineEnd,
    Blank,
    Word,
}

// Is the byte a blank?
fn is_blank(c: u8) -> bool
    ensures { result ≡ is_blank c }
{
    c == b' ' || c == b'\t' || c == b'\r'
}

// Is the byte what is sought?
fn is_sought(c: u8, sought: Sought) -> bool
    ensures { result ≡ is_sought sought c }
{
    match sought {
        Sought::LineEnd => c == b'\n',
        Sought::Blank => is_blank(c),
        Sought::Word => !is_blank(c),
    }
}

// The index of the first byte from `at` on that is what is sought, the text's length where there is none, `at` where that lies behind the text.
pub(crate) fn find(text: &[u8], at: usize, sought: Sought) -> usize
    ensures { result ≡ at + count_before (is_sought sought) (drop at text.now) }
{
    for i in at..text.len() {
        if is_sought(text[i], sought) {
            return i;
        }
    }
    at.max(text.len())
}

// Is the byte a decimal digit?
fn is_digit(c: u8) -> bool
    ensures { result ≡ is_digit c }
{
    b'0' <= c && c <= b'9'
}

// The decimal number that the word is, where it is one that fits.
pub fn number(word: &[u8]) -> Option<u32>
    ensures { NumberRead word.now result }
{
    if word.is_empty() {
        return None;
    }
    let mut n: u32 = 0;
    for c in word {
        if !is_digit(*c) {
            return None;
        }
        n = n.checked_mul(10)?.checked_add(u32::from(*c - b'0'))?;
    }
    Some(n)
}

// The next word of a line: none is left, a number, or another.
#[derive(Clone, Copy)]
pub(crate) enum Word {
    Missing,
    Number(u32),
    Other,
}

// The first word from `at` on, and where it ends.
pub(crate) fn next_word(line: &[u8], at: usize) -> (Word, usize)
    ensures { WordRead line.now at result }
{
    let start = find(line, at, Sought::Word);
    if line.len() <= start {
        return (Word::Missing, start);
    }
    let end = find(line, start, Sought::Blank);
    match number(&line[start..end]) {
        Some(n) => (Word::Number(n), end),
        None => (Word::Other, end),
    }
}
