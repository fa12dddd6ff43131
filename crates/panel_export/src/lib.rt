// Judging and the helper for callers in C: each slice is a pointer and a count, each reply one number. The pointer of an empty slice is not null either.
#![tactic(auto)]

ghost use Rattle.std.specs.Prelude.{◌≡◌, length};
ghost use Rattle.points.specs.Points.{pair};
ghost use Rattle.state.specs.Results.{verdict};
ghost use Rattle.judging.specs.Judging.{judged};
ghost use Rattle.format.specs.Replies.{writer_said};
ghost use Rattle.helper.specs.Helper.{annotated, BufferAfter};
ghost use Rattle.panel_export.specs.Codes.{said_code, reply_code};

use points::Point;
use refusals::Refusal;

// An answer as one number: the value, 4294967296 for none, that plus k for the refusal k.
fn answer_code(answer: Result<Option<u64>, Refusal>) -> u64
    ensures { result ≡ said_code (verdict answer) }
{
    match answer {
        Ok(Some(v)) => v,
        Ok(None) => 4294967296,
        Err(refusal) => 4294967296 + u64::from(u8::from(refusal)),
    }
}

// A reply of the helper as one number: the length, or 4294967296 plus k for the refusal k.
fn written_code(written: Result<u32, Refusal>) -> u64
    ensures { result ≡ reply_code (writer_said written) }
{
    match written {
        Ok(k) => u64::from(k),
        Err(refusal) => 4294967296 + u64::from(u8::from(refusal)),
    }
}

#[unsafe(no_mangle)]
pub extern "C" fn panel_judge(net: &[u8], ann: &[u8], first: u32, second: u32) -> u64
    ensures { result ≡ said_code (judged net.now ann.now (pair first second)) }
{
    let point = Point {
        first: first,
        second: second,
    };
    answer_code(judging::judge(net, ann, point))
}

#[unsafe(no_mangle)]
pub extern "C" fn panel_annotate(net: &[u8], buffer: &mut [u8]) -> u64
    ensures { (result ≡ reply_code (annotated net.now (length buffer.old))) × BufferAfter (annotated net.now (length buffer.old)) net.now buffer.old buffer.new }
{
    written_code(helper::annotate(net, buffer))
}
