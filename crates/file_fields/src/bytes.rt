// Bytes and numbers at an index of a slice, read and written. Past the end a byte reads as 0, and nothing is written.
ghost use Rattle.std.specs.Prelude.{◌≡◌, ◌%◌};
ghost use Rattle.std.proofs.lemmas.List.Edits.{sets};
ghost use Rattle.file_fields.specs.Bytes.{byte_at, byte16, read16, bytes32, read32, byte32, read_signed};

use words::entries::store;

// ---- reading

// The byte at i.
pub fn byte(file: &[u8], i: usize) -> u8
    ensures { result ≡ byte_at file.now i }
{
    file.get(i).copied().unwrap_or(0)
}

// The number of 16 bits at i.
pub fn number16(file: &[u8], i: usize) -> u16
    ensures { result ≡ read16 file.now i }
{
    if file.len() <= i {
        return 0;
    }
    u16::from_be_bytes([byte(file, i), byte(file, i + 1)])
}

// The 32 bits at i.
pub fn bits32(file: &[u8], i: usize) -> u32
    ensures { result ≡ read32 file.now i }
{
    if file.len() <= i {
        return 0;
    }
    u32::from_be_bytes([
        byte(file, i),
        byte(file, i + 1),
        byte(file, i + 2),
        byte(file, i + 3),
    ])
}

// The number of 32 bits at i.
pub fn number32(file: &[u8], i: usize) -> i32
    ensures { result ≡ read_signed file.now i }
{
    bits32(file, i).cast_signed()
}

// ---- writing

// The low byte of a number. By the remainder, as the definition of the file has it; `to_be_bytes` would be an array and an index.
pub fn low8(k: u32) -> u8
    ensures { result ≡ k % 256 }
{
    (k % 256) as u8
}

// The low 16 bits of a number, by the remainder for the same reason.
pub fn low16(k: u32) -> u16
    ensures { result ≡ k % 65536 }
{
    (k % 65536) as u16
}

pub fn put16(buffer: &mut [u8], i: usize, v: u16)
    ensures { buffer.new ≡ sets buffer.old i (byte16 v) }
{
    if buffer.len() <= i {
        return;
    }
    store(buffer, i, (v / 256) as u8);
    store(buffer, i + 1, (v % 256) as u8);
}

// In halves as above; one function for both widths would need a trait that splits a number, which is longer.
pub fn put_bits32(buffer: &mut [u8], i: usize, k: u32)
    ensures { buffer.new ≡ sets buffer.old i (bytes32 k) }
{
    if buffer.len() <= i {
        return;
    }
    put16(buffer, i, (k / 65536) as u16);
    put16(buffer, i + 2, (k % 65536) as u16);
}

pub fn put32(buffer: &mut [u8], i: usize, z: i32)
    ensures { buffer.new ≡ sets buffer.old i (byte32 z) }
{
    put_bits32(buffer, i, z.cast_unsigned());
}
