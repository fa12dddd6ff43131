// The helper (PANEL 9): an annotation for a network file, written into a lent buffer.
#![tactic(auto)]

ghost use Rattle.std.specs.Prelude.{◌≡◌, length};
ghost use Rattle.format.specs.Replies.{writer_said};
ghost use Rattle.helper.specs.Helper.{annotated, BufferAfter};

use annotation_writing::{annotate_check, annotation_size};
use refusals::Refusal;
use writing::write_annotation;

mod writing;

// Writes an annotation for the network file into the front of the buffer. A refusal leaves the buffer as it is.
pub fn annotate(net: &[u8], buffer: &mut [u8]) -> Result<u32, Refusal>
    ensures { (writer_said result ≡ annotated net.now (length buffer.old)) × BufferAfter (writer_said result) net.now buffer.old buffer.new }
{
    annotate_check(net, buffer.len())?;
    write_annotation(net, buffer);
    Ok(annotation_size(net))
}
