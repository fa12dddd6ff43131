// What begins either file: its mark and its version, written, and checked with its length (PANEL 7, checks 17 to 19).
ghost use Rattle.std.specs.Prelude.{◌≡◌};
ghost use Rattle.std.proofs.lemmas.List.Edits.{sets};
ghost use Rattle.prelude.specs.Checks.{first_broken};
ghost use Rattle.refusals.specs.Refusals.{why};
ghost use Rattle.file_fields.specs.Layout.{has_mark, layout, mark_and_version};

use super::bytes::{byte, number16, put16};
use refusals::Refusal;
use words::entries::store;

// Does the file begin with D, R and the letter third?
fn has_mark(file: &[u8], third: u8) -> bool
    ensures { result ≡ has_mark third file.now }
{
    byte(file, 0) == b'D' && byte(file, 1) == b'R' && byte(file, 2) == third
}

// The first check that refuses the file, whose mark ends in the letter third.
pub fn layout_check(file: &[u8], header: usize, third: u8, size: usize) -> Result<(), Refusal>
    ensures { why result ≡ first_broken (layout header third size file.now) }
{
    if file.len() < header || !has_mark(file, third) {
        return Err(Refusal::WrongMark);
    }
    if number16(file, 3) != 1 {
        return Err(Refusal::WrongVersion);
    }
    if file.len() != size {
        return Err(Refusal::WrongLength);
    }
    Ok(())
}

// The mark that ends in the letter third, and the version 1: five bytes.
pub fn write_mark(buffer: &mut [u8], third: u8)
    ensures { buffer.new ≡ sets buffer.old 0 (mark_and_version third) }
{
    store(buffer, 0, b'D');
    store(buffer, 1, b'R');
    store(buffer, 2, third);
    put16(buffer, 3, 1);
}
