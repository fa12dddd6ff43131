// Numbers at an index of a slice, read with no test where all of their bytes are within it.
ghost use Rattle.std.specs.Prelude.{◌≡◌, ◌+◌, ◌≤◌, length};
ghost use Rattle.file_fields.specs.Bytes.{read16, read32, read_signed};

// The number of 16 bits at i.
pub(crate) fn inner16(file: &[u8], i: usize) -> u16
    requires { i + 2 ≤ length file.now }
    ensures { result ≡ read16 file.now i }
{
    u16::from_be_bytes([file[i], file[i + 1]])
}

// The 32 bits at i.
pub(crate) fn inner_bits32(file: &[u8], i: usize) -> u32
    requires { i + 4 ≤ length file.now }
    ensures { result ≡ read32 file.now i }
{
    u32::from_be_bytes([file[i], file[i + 1], file[i + 2], file[i + 3]])
}

// The number of 32 bits at i.
pub(crate) fn inner32(file: &[u8], i: usize) -> i32
    requires { i + 4 ≤ length file.now }
    ensures { result ≡ read_signed file.now i }
{
    inner_bits32(file, i).cast_signed()
}
