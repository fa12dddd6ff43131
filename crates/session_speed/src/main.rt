// Whole sessions of 4096 channels, as many as there are bytes on standard input: an 'r' reads only, any other byte goes through to finishing.
// For measuring; the gate runs it on two bytes.
#![tactic(auto)]

use checks::Opening;
use points::Point;
use refusals::Refusal;
use session::Session;
use std::io::{Input, Read};

// The tail, head and weight of the i-th channel; 32 of 4096 are basins.
fn tail(i: u32) -> u32 {
    i % 254
}

fn head(i: u32) -> u32 {
    254 - i % 128
}

fn weight(i: u32) -> u32 {
    i % 4681 * 7
}

// All channels read.
fn read(point: Point) -> Session {
    let opening = Opening {
        question: 2,
        n: 255,
        s: 0,
        t: 254,
    };
    let mut x = Session::open(opening, point).session;
    for i in 0..4096 {
        x = x.read_channel(tail(i), head(i), weight(i)).session;
    }
    x.end_reading().session
}

// The claim of a value, and the marks: 1 at the source, 0 elsewhere.
fn marked(from: Session) -> Session {
    let mut x = from.claim(1).session.node_number(1).session;
    for _ in 0..254 {
        x = x.node_number(0).session;
    }
    x
}

// All channels again, empty.
fn repeated(from: Session) -> Session {
    let mut x = from;
    for i in 0..4096 {
        x = x.repeat_channel(tail(i), head(i), weight(i), 0).session;
    }
    x
}

// What one session ends in.
fn one(byte: u8, point: Point) -> Result<Option<u64>, Refusal> {
    let x = read(point);
    if byte == b'r' {
        return x.finish().answer;
    }
    repeated(marked(x)).finish().answer
}

// The value or the number of the refusal, 0 for none.
fn number(answer: Result<Option<u64>, Refusal>) -> u64 {
    match answer {
        Ok(value) => value.unwrap_or(0),
        Err(why) => u64::from(u8::from(why)),
    }
}

// One session a byte of what one read of the standard input gives; none where it fails. Whether a line could be printed stops nothing.
fn main(rt: HostRuntime) {
    let mut input = [0u8; 65536];
    let n = rt.reader().read(&mut input).unwrap_or(0);
    let point = Point {
        first: 5,
        second: 6,
    };
    for byte in &input[..n] {
        let last = number(one(*byte, point));
        let _ = println!(rt; "{last}");
    }
}
