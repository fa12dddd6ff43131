// The line of the annotating program: the bytes of a network are annotated, and the annotation is saved.
ghost use Rattle.std.specs.Prelude.{◌≡◌, length};
ghost use Rattle.format.specs.Replies.{writer_said};
ghost use Rattle.helper.specs.Helper.{BufferAfter};
ghost use Rattle.program_io.specs.Counted.{counted};
ghost use Rattle.plan_annotations.specs.AnnotationLine.{file_reply, AnnotatedFiles};

use program_io::counted::counted;
use program_io::front::read_front;
use program_io::line::Line;
use refusals::Refusal;
use std::fs::Files;
use written_files::{by_number, line_for, save_reply};

// The annotation for what counts of a network file, in the buffer.
fn annotation(net: &[u8], ann: &mut [u8]) -> Result<u32, Refusal>
    ensures result_value { writer_said result ≡ file_reply net.now (length ann.old) }
    ensures buffer_after { BufferAfter (writer_said result) (counted net.now) ann.old ann.new }
{
    helper::annotate(counted(net), ann)
}

// How many bytes of the network file were read into its buffer, whether the annotation is in its file, and the line. The length and the flag are what the clauses
// say the line for. The line is there whether the file is saved or not, so the flag is no Option or Result of it.
#[derive(Clone, Copy)]
pub struct Annotated {
    pub net: usize,
    pub saved: bool,
    pub line: Line,
}

// Reads the named network file into a buffer that holds as many bytes as count, annotates what was read in the other, which is room enough
// for every annotation, saves that and makes the line.
pub fn annotate_files<R: Files>(
    files: &R,
    net_name: &[u8],
    ann_name: &[u8],
    net: &mut [u8; 32768],
    ann: &mut [u8; 32768],
) -> Annotated
    ensures { AnnotatedFiles 32768 net.new ann.old ann.new result }
{
    let n = read_front(files, net_name, net);
    let reply = by_number(annotation(&net[..n], ann));
    let saved = save_reply(files, ann_name, reply, ann);
    Annotated {
        net: n,
        saved,
        line: line_for(reply, saved),
    }
}
