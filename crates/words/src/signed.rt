// Operations on signed numbers, each defined for every argument, with contracts in ℤ.
ghost use Rattle.std.specs.Prelude.{◌≡◌, ◌&&◌, pos, ◌+ℤ◌};
ghost use Rattle.std.specs.Int.Signed.{le_z};
ghost use Rattle.prelude.specs.Integers.{natural};
ghost use Rattle.words.specs.Bounded.{small, bounded_sum, bounded_difference};

// Is b at most a + w? The sum is taken in 64 bits, where it fits.
pub fn at_most_sum(b: i32, a: i32, w: u32) -> bool
    ensures { result ≡ le_z b (a +ℤ pos w) }
{
    i64::from(b) <= i64::from(a) + i64::from(w)
}

// Is z from -2 ^ 61 to 2 ^ 61, so that the sum of two such numbers fits?
pub fn is_small(z: i64) -> bool
    ensures { result ≡ small z }
{
    -2305843009213693952 <= z && z <= 2305843009213693952
}

// May a and b be added and subtracted?
fn both_small(a: i64, b: i64) -> bool
    ensures { result ≡ (small a && small b) }
{
    is_small(a) && is_small(b)
}

// The sum where both are small, else a.
pub fn add(a: i64, b: i64) -> i64
    ensures { result ≡ bounded_sum a b }
{
    if both_small(a, b) {
        return a + b;
    }
    a
}

// The difference where both are small, else a.
pub fn subtract(a: i64, b: i64) -> i64
    ensures { result ≡ bounded_difference a b }
{
    if both_small(a, b) {
        return a - b;
    }
    a
}

// The number a with x added where a is small, else a. An unsigned number of 32 bits is always small.
pub fn increase(a: i64, x: u32) -> i64
    ensures { result ≡ bounded_sum a (pos x) }
{
    if is_small(a) {
        return a + i64::from(x);
    }
    a
}

// The number a with x taken off where a is small, else a.
pub fn decrease(a: i64, x: u32) -> i64
    ensures { result ≡ bounded_difference a (pos x) }
{
    if is_small(a) {
        return a - i64::from(x);
    }
    a
}

// The number z, 0 where it is negative.
pub fn to_unsigned(z: i64) -> u64
    ensures { result ≡ natural z }
{
    z.max(0) as u64
}
