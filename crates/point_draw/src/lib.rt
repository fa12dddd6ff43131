// Two points drawn from the system's entropy, every pair equally likely, and the file that holds them.
#![tactic(auto)]

ghost use Rattle.std.specs.Prelude.{◌≡◌, take};
ghost use Rattle.io.specs.Counts.{IsPrefixLen};
ghost use Rattle.point_draw.specs.Draw.{low31, drawn, drawn_pair, point_file, point_line};

use file_fields::bytes::{bits32, put_bits32};
use program_io::line::Line;
use program_io::saving;
use std::fs::Files;
use std::random::RandomSource;

// The low 31 bits of a word.
fn low31(w: u32) -> u32
    ensures { result ≡ low31 w }
{
    w % 2147483648
}

// Draws a point: the first word of the random bytes whose low 31 bits are below p gives it, and where there is none nothing is drawn. A
// word that gives p itself is dropped, since taking it for another point would make that point likelier.
pub fn draw(random: &[u8]) -> Option<u32>
    ensures { result ≡ drawn random.now }
{
    for word in random.chunks_exact(4) {
        let k = low31(bits32(word, 0));
        if field::is_residue(k) {
            return Some(k);
        }
    }
    None
}

// Draws two points, each from words of its own: the first half of the random bytes is for the first point, the rest for the second. Where
// either is missing, nothing is drawn.
pub fn draw_pair(random: &[u8]) -> Option<(u32, u32)>
    ensures { result ≡ drawn_pair random.now }
{
    let (front, rest) = random.split_at(random.len() / 8 * 4);
    draw(front).zip(draw(rest))
}

// Puts the eight bytes of the points into their file's buffer, which stays as it is where nothing was drawn.
pub fn write_point(drawn: Option<(u32, u32)>, file: &mut [u8; 8])
    ensures { file.new ≡ point_file drawn file.old }
{
    if let Some((r, q)) = drawn {
        put_bits32(file, 0, r);
        put_bits32(file, 4, q);
    }
}

// The line for what was drawn, saved or not.
pub fn line_for(drawn: Option<(u32, u32)>, done: bool) -> Line
    ensures { result ≡ point_line drawn done }
{
    match drawn {
        Some(_) => Line::saved(8, done),
        None => Line::plain(b"no entropy\n"),
    }
}

// Fills the buffer with random bytes of the system, and answers how many count: none where it has no entropy to give. No heap: so the bytes are lent, and a clause names the buffer only by its length.
fn entropy<R: RandomSource>(source: &R, random: &mut [u8]) -> usize
    ensures { IsPrefixLen result random.new }
{
    match source.fill_bytes(random) {
        Ok(()) => random.len(),
        Err(_) => 0,
    }
}

// How many random bytes count, whether the points are in their file, and the line, which is there whether they are or not: so the flag is no Option or Result of it.
#[derive(Clone, Copy)]
pub struct Made {
    pub random: usize,
    pub saved: bool,
    pub line: Line,
}

// Draws two points from random bytes of the system in a lent buffer, puts their bytes into the other, saves them in the named file for its
// owner alone, and makes the line.
pub fn make_point<R: Files + RandomSource>(
    rt: &R,
    name: &[u8],
    random: &mut [u8],
    file: &mut [u8; 8],
) -> Made
    ensures prefix_len { IsPrefixLen result.random random.new }
    ensures file_after { file.new ≡ point_file (drawn_pair (take result.random random.new)) file.old }
    ensures line { result.line ≡ point_line (drawn_pair (take result.random random.new)) result.saved }
{
    let n = entropy(rt, random);
    let drawn = draw_pair(&random[..n]);
    write_point(drawn, file);
    let saved = drawn.is_some() && saving::save(rt, name, file, 0o600).is_ok();
    Made {
        random: n,
        saved,
        line: line_for(drawn, saved),
    }
}
