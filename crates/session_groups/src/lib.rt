// The groups of what a session knows, and what each step makes of a group.
#![tactic(auto)]

ghost use Rattle.std.specs.Prelude.{◌≡◌, not, ◌&&◌, ◌*◌, pos};
ghost use Rattle.prelude.specs.Choice.{indicator};
ghost use Rattle.words.specs.Bounded.{bounded_sum};
ghost use Rattle.points.specs.Points.{empty_stream};
ghost use Rattle.session_groups.specs.Groups.{claimed, unrepeated};

use checks::HeldSetting;
use points::{Point, Stream};
use words::signed::increase;

pub mod step_checks;

// No group has a gap between its fields: it would be copied in pieces at each step. The half word that is left over stands at the end of the last group.

// What opening and reading fix.
#[derive(Clone, Copy)]
pub struct Reading {
    pub setting: HeldSetting,
    pub point: Point,
    pub list: Stream,
}

// The claim, how many node numbers are given, and the marks.
#[derive(Clone, Copy)]
pub struct Numbering {
    pub claim: u32,
    pub given: u32,
    pub marks: [u64; 4],
}

// The arcs that are repeated: their cost, the capacity of the cut that the marks make, and their list.
#[derive(Clone, Copy)]
pub struct Repeating {
    pub cost: i64,
    pub cut: i64,
    pub list: Stream,
}

// The phases of a session (PANEL 6); one with any other number is over, too. They are numbers: a phase fills a whole word of the state, since gaps between fields are copied in pieces at each step (measured), and contracts hold for every number.
pub const OVER: u64 = 0;

pub const READING: u64 = 1;

pub const READ: u64 = 2;

pub const CLAIMED: u64 = 3;

// The list of no arc.
pub fn no_list() -> Stream
    ensures { result ≡ empty_stream }
{
    Stream {
        count: 0,
        print: points::no_arcs(),
    }
}

// A claim with no node number yet.
pub fn claimed(claim: u32) -> Numbering
    ensures { result ≡ claimed claim }
{
    Numbering {
        claim,
        given: 0,
        marks: [0u64; 4],
    }
}

// Nothing is repeated yet.
pub fn unrepeated() -> Repeating
    ensures { result ≡ unrepeated }
{
    Repeating {
        list: no_list(),
        cost: 0,
        cut: 0,
    }
}

// Does an arc lead out of the marked side?
pub fn leads_out(from: bool, to: bool) -> bool
    ensures { result ≡ (from && not to) }
{
    from && !to
}

// The capacity of the cut with one arc more, which may carry so many units.
pub fn cut_after(cut: i64, units: u32, crossing: bool) -> i64
    ensures { result ≡ bounded_sum cut (pos (units * indicator crossing)) }
{
    if crossing {
        return increase(cut, units);
    }
    cut
}
