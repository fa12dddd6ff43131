// The scheduling program: it reads windows.txt and plan.drn of the current folder, writes open.drn, the network of the minute that it is called with,
// and prints one line.
#![tactic(auto)]

ghost use Rattle.io.specs.Counts.{IsPrefixLen};

use plan_schedules::schedule_line;
use program_io::front;
use std::env::{Env, FillError};

// Whether there is an argument of this number; the name of the program is number 0.
fn is_given<R: Env>(env: &R, i: usize) -> bool {
    !matches!(env.arg(i, &mut []), Err(FillError::NotPresent))
}

// Puts the argument into the buffer (no heap, so no String), and answers its length: 0 where the program is called with none or with more than one.
fn argument<R: Env>(env: &R, buffer: &mut [u8]) -> usize
    ensures { IsPrefixLen result buffer.new }
{
    if is_given(env, 2) {
        return 0;
    }
    env.arg(1, buffer).unwrap_or(0)
}

fn main(rt: HostRuntime) {
    let mut minute = [0u8; 64];
    let mut table = [0u8; 32769];
    let mut net = front::room();
    let mut out = front::room();
    let n = argument(&rt, &mut minute);
    let scheduled = schedule_line::schedule_files(
        &rt,
        &minute[..n],
        b"windows.txt",
        b"plan.drn",
        b"open.drn",
        &mut table,
        &mut net,
        &mut out,
    );
    io::write_all(1, scheduled.done.line.as_bytes());
}
