// How much of a file counts.
ghost use Rattle.std.specs.Prelude.{◌≡◌};
ghost use Rattle.program_io.specs.Counted.{counted};

// The bytes of the file that count.
pub fn counted(file: &[u8]) -> &[u8]
    ensures { result.now ≡ counted file.now }
{
    &file[..file.len().min(32768)]
}
