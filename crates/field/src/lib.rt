// Numbers modulo the prime 2147483647: one more factor of a fingerprint.
#![tactic(auto)]

ghost use Rattle.std.specs.Prelude.{◌≡◌, ltb};
ghost use Rattle.field.specs.Field.{p, extended};

// The prime p.
const P: u64 = 2147483647;

// Is the number below p?
pub fn is_residue(k: u32) -> bool
    ensures { result ≡ ltb k p }
{
    u64::from(k) < P
}

// The fingerprint with the factor point - key multiplied in. Of any three numbers.
pub fn extend(point: u32, fingerprint: u32, key: u64) -> u32
    ensures { result ≡ extended point fingerprint key }
{
    let factor = (u64::from(point) + P.saturating_sub(key)) % P;
    (factor * u64::from(fingerprint) % P) as u32
}
