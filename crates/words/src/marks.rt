// Marks of vertices as the bits of four words of 64 (PANEL 5).
ghost use Rattle.std.specs.Prelude.{◌≡◌, ◌+◌, ◌-◌, ◌/◌, get_or};
ghost use Rattle.words.specs.Marks.{is_marked, with_mark};
ghost use Rattle.words.specs.Masks.{mask_below, mask};
ghost use Rattle.prelude.specs.Sums.{count};

// The word with the mark of v, 0 past the four.
fn word_of(words: [u64; 4], v: u32) -> u64
    ensures { result ≡ get_or words (v / 64) 0 }
{
    words.get((v / 64) as usize).copied().unwrap_or(0)
}

// Is the vertex v marked? From 256 on none is.
pub fn is_marked(words: [u64; 4], v: u32) -> bool
    ensures { result ≡ is_marked words v }
{
    (word_of(words, v) >> (v & 63)) & 1 == 1
}

// The marks with that of v. From 256 on there is no place for one.
pub fn with_mark(words: [u64; 4], v: u32) -> [u64; 4]
    ensures { result ≡ with_mark words v }
{
    let k = (v >> 6) as usize;
    if 4 <= k {
        return words;
    }
    let bit = 1u64 << (v & 63);
    let mut next = words;
    next[k] |= bit;
    next
}

// The bits of word k that belong to the vertices below h.
fn mask_below(h: u32, k: u32) -> u64
    ensures { result ≡ mask_below h k }
{
    // in 64 bits, where no product is too large
    let end = u64::from(h);
    let first = u64::from(k) * 64;
    if end <= first {
        return 0;
    }
    let bits = end - first;
    if 64 <= bits {
        return u64::MAX;
    }
    (1u64 << bits) - 1
}

// The bits of word k that belong to the vertices from low to high - 1.
fn mask(low: u32, high: u32, k: u32) -> u64
    ensures { result ≡ mask low high k }
{
    mask_below(high, k).saturating_sub(mask_below(low, k))
}

// How many of the vertices from low to high - 1 are marked.
pub fn count_marked(words: [u64; 4], low: u32, high: u32) -> u32
    ensures { result ≡ count (λ i. is_marked words (low + i)) (high - low) }
{
    let a = (words[0] & mask(low, high, 0)).count_ones();
    let b = (words[1] & mask(low, high, 1)).count_ones();
    let c = (words[2] & mask(low, high, 2)).count_ones();
    let d = (words[3] & mask(low, high, 3)).count_ones();
    a + b + c + d
}
