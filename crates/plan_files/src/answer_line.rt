// The line of the judging program: what the bytes of two points, a network and an annotation come out as.
ghost use Rattle.std.specs.Prelude.{◌≡◌};
ghost use Rattle.state.specs.Results.{verdict};
ghost use Rattle.plan_files.specs.AnswerLine.{point_in, program_answer, answer_line, program_line, JudgedFiles};

use file_fields::bytes::bits32;
use points::Point;
use program_io::counted::counted;
use program_io::front::read_front;
use program_io::line::Line;
use refusals::Refusal;
use std::fs::Files;

// The pair of points in the first eight bytes.
fn point_in(point: &[u8]) -> Point
    ensures { result ≡ point_in point.now }
{
    Point {
        first: bits32(point, 0),
        second: bits32(point, 4),
    }
}

// What the three files come out as, given their bytes.
fn answer(point: &[u8], net: &[u8], ann: &[u8]) -> Result<Option<u64>, Refusal>
    ensures { verdict result ≡ program_answer point.now net.now ann.now }
{
    if point.len() < 8 {
        return Err(Refusal::PointTooLarge);
    }
    judging::judge(counted(net), counted(ann), point_in(point))
}

// The line for an answer.
fn line_for(answer: Result<Option<u64>, Refusal>) -> Line
    ensures { result ≡ answer_line (verdict answer) }
{
    match answer {
        Ok(Some(v)) => Line::numbered(b"value ", v),
        Ok(None) => Line::plain(b"none\n"),
        Err(refusal) => Line::refused(u8::from(refusal)),
    }
}

// The line for the bytes of the three files.
pub fn judge_line(point: &[u8], net: &[u8], ann: &[u8]) -> Line
    ensures { result ≡ program_line point.now net.now ann.now }
{
    line_for(answer(point, net, ann))
}

// How many bytes of each file were read into its buffer, and the line. The lengths are what the clause says the line
// for.
#[derive(Clone, Copy)]
pub struct Judged {
    pub point: usize,
    pub net: usize,
    pub ann: usize,
    pub line: Line,
}

// Reads the three named files into buffers that hold as many bytes as count, and makes the line for what was read. The other two files are
// not opened where fewer than eight bytes hold the points.
pub fn judge_files<R: Files>(
    files: &R,
    point_name: &[u8],
    net_name: &[u8],
    ann_name: &[u8],
    point: &mut [u8; 8],
    net: &mut [u8; 32768],
    ann: &mut [u8; 32768],
) -> Judged
    ensures { JudgedFiles point.new net.new ann.new result }
{
    let p = read_front(files, point_name, point);
    if p < 8 {
        return Judged {
            point: p,
            net: 0,
            ann: 0,
            line: judge_line(&point[..p], &[], &[]),
        };
    }
    let n = read_front(files, net_name, net);
    let m = read_front(files, ann_name, ann);
    Judged {
        point: p,
        net: n,
        ann: m,
        line: judge_line(&point[..p], &net[..n], &ann[..m]),
    }
}
