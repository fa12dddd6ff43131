// What one arc or one node number more makes of a group, where there is room for it.
ghost use Rattle.std.specs.Prelude.{◌≡◌, ◌*◌, ◌≤◌, ◌<◌, pos};
ghost use Rattle.words.specs.Bounded.{bounded_sum};
ghost use Rattle.arc_records.specs.Arcs.{arc_held};
ghost use Rattle.points.specs.Points.{extend_stream};
ghost use Rattle.session_groups.specs.Groups.{number_more};

use arc_records::Record;
use points::{Point, Stream};
use session_groups::Numbering;
use words::marks::with_mark;
use words::signed::increase;

// The list with one arc more, which has fewer than `most`.
pub(crate) fn with_arc(point: Point, list: Stream, most: u32, arc: Record) -> Stream
    requires { list.count < most }
    ensures { result ≡ extend_stream point list (arc_held arc) }
{
    let count = list.count;
    let print = list.print;
    Stream {
        count: count + 1,
        print: points::with_arc(point, print, arc),
    }
}

// One node number more, of n.
pub(crate) fn with_number(mut g: Numbering, n: u8, y: i32) -> Numbering
    requires { g.given < n }
    ensures { result ≡ number_more g y }
{
    let given = g.given;
    g.given = given + 1;
    if y == 1 {
        let marks = g.marks;
        let next = with_mark(marks, given);
        g.marks = next;
        return g;
    }
    g
}

// The total cost with one arc more, whose unit costs so much.
pub(crate) fn cost_after(cost: i64, unit: u32, x: u32) -> i64
    requires unit_bound { unit ≤ 32767 }
    requires x_bound { x ≤ 32767 }
    ensures { result ≡ bounded_sum cost (pos (x * unit)) }
{
    increase(cost, x * unit)
}
