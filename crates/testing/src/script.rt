// A script of cases: a line each, with a label, a colon and words. What words are made of: numbers, lists of them, how often the word is to be
// done, and bytes in hexadecimal.
use std::alloc::{AllocError, Global};

// The number that a text is, in 32 bits; a negative one as its two's complement.
pub fn number(text: &str) -> u32 {
    match text.parse::<i32>() {
        Ok(k) => k.cast_unsigned(),
        Err(_) => text.parse::<u32>().unwrap_or(0),
    }
}

// The first numbers of a list with commas between; 0 where it is shorter.
pub fn numbers<const N: usize>(list: &str) -> [u32; N] {
    let mut all = [0u32; N];
    for (k, text) in all.iter_mut().zip(list.split(',')) {
        *k = number(text);
    }
    all
}

// A word without the `*` and the number at its end, and that number: how often it is to be done, else once.
pub fn repeated(word: &str) -> (&str, u32) {
    match word.split_once('*') {
        Some((once, times)) => (once, number(times)),
        None => (word, 1),
    }
}

// The bytes that stand in hexadecimal in a text, by the digits in it.
pub fn hexadecimal(alloc: Global, text: &str) -> Result<Vec<u8>, AllocError> {
    let mut bytes = Vec::new(alloc);
    let mut first: Option<u32> = None;
    for digit in text.chars().filter_map(|c| c.to_digit(16)) {
        match first.take() {
            None => first = Some(digit),
            Some(high) => bytes.push(((high << 4 | digit) & 0xff) as u8)?,
        }
    }
    Ok(bytes)
}
