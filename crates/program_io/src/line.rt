// Text in fixed memory, and the lines that the programs print.
ghost use Rattle.std.specs.Prelude.{◌≡◌, ◌+◌, ◌≤◌, [], ◌++◌, length};
ghost use Rattle.program_io.specs.Line.{decimal, number_line, refused_line, saved_line, fitting_text, fitting_line};

use std::marker::Model;

// A text of at most N bytes: no heap, so no String. Zeros stand behind the text, so that it gives the fields back.
#[derive(Clone, Copy)]
pub struct Text<const N: usize> {
    bytes: [u8; N],
    size: usize,
}

impl<const N: usize> Model for Text<N> {
    ghost use Rattle.std.specs.Prelude.{◌≡◌, ◌≤◌, ◌-◌, ℕ, List, ◌++◌, length, take, drop, replicate};
    ghost use Rattle.std.proofs.Common.{length-take-le, take-append-drop};
    ghost use Rattle.std.proofs.Math.Path.{◌∙◌, ap, sym};

    ghost Value = { List ℕ };

    ghost view = { λ t. take t.size t.bytes };

    ghost invariant = { λ t. (t.size ≤ length t.bytes) × (drop t.size t.bytes ≡ replicate (N - t.size) 0) };

    ghost inverse = { λ text. record { bytes = text ++ replicate (N - length text) 0; size = length text } };

    ghost inverse_ok = { λ t h i. record {
      bytes = (ap (λ k. take t.size t.bytes ++ replicate (N - k) 0) (length-take-le t.size t.bytes h.0) ∙ ap (λ l. take t.size t.bytes ++ l) (sym h.1) ∙ take-append-drop t.size t.bytes) i;
      size = length-take-le t.size t.bytes h.0 i;
    } };
}

// A line holds a word of eleven bytes, a number of 64 bits and a line end.
pub type Line = Text<32>;

impl<const N: usize> Text<N> {
    pub(crate) fn new() -> Self
        ensures { result ≡ [] }
    {
        Text {
            bytes: [0; N],
            size: 0,
        }
    }

    // The bytes of the text.
    pub fn as_bytes(&self) -> &[u8]
        ensures { result.now ≡ self.now }
    {
        &self.bytes[..self.size]
    }

    // Puts the bytes behind the text.
    pub(crate) fn push(&mut self, bytes: &[u8])
        requires { length self.old + length bytes.now ≤ N }
        ensures { self.new ≡ self.old ++ bytes.now }
    {
        let end = self.size + bytes.len();
        let room = &mut self.bytes[..];
        room[self.size..end].copy_from_slice(bytes);
        self.size = end;
    }

    // Puts the number in decimal behind the text.
    #[tactic(auto, using(crate::proofs::Lines::decimal_digits, crate::proofs::Lines::few_digits))]
    pub(crate) fn push_decimal(&mut self, n: u64)
        requires { length self.old + 20 ≤ N }
        ensures text { self.new ≡ self.old ++ decimal n }
        ensures digits { length self.new ≤ length self.old + 20 }
    {
        let mut digits = [0u8; 20];
        let k = io::decimal(n, &mut digits);
        self.push(&digits[..k]);
    }
}

impl Line {
    // The text; none where it is longer than a line.
    pub fn plain(text: &[u8]) -> Line
        ensures { result ≡ fitting_text text.now }
    {
        let mut line = Line::new();
        if text.len() <= 32 {
            line.push(text);
        }
        line
    }

    // The word, the number in decimal and a line end; nothing where the word leaves too little room.
    pub fn numbered(word: &[u8], n: u64) -> Line
        ensures { result ≡ fitting_line word.now n }
    {
        let mut line = Line::new();
        if word.len() <= 11 {
            line.push(word);
            line.push_decimal(n);
            line.push(b"\n");
        }
        line
    }

    // The line of a refusal.
    pub fn refused(k: u8) -> Line
        ensures { result ≡ refused_line k }
    {
        Line::numbered(b"refused ", u64::from(k))
    }

    // The line for a file of so many bytes that was saved or not.
    pub fn saved(size: u32, done: bool) -> Line
        ensures { result ≡ saved_line size done }
    {
        if done {
            return Line::numbered(b"written ", u64::from(size));
        }
        Line::plain(b"not written\n")
    }
}
