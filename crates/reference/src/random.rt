// Numbers that look random and are the same in every run.

fn stirred(x: usize) -> usize {
    let y = (x % 2147483647) * 48271 % 2147483647;
    (y % 65536) * 32749 + y / 65536
}

// A number below the limit, 0 where that is 0, for a seed, a place and a purpose.
pub fn below(limit: usize, seed: usize, place: usize, purpose: usize) -> usize {
    let x = (seed % 100000) * 32771 + (place % 4096) * 8 + purpose % 8;
    modulo(stirred(stirred(stirred(stirred(x)))), limit)
}

// The remainder, 0 where b is 0.
pub fn modulo(a: usize, b: usize) -> usize {
    a.checked_rem(b).unwrap_or(0)
}

// How often b goes into a, 0 where b is 0.
pub fn quotient(a: usize, b: usize) -> usize {
    a.checked_div(b).unwrap_or(0)
}

// The low byte of a number.
pub fn low_byte(x: usize) -> u8 {
    (x & 0xff) as u8
}
