// The lines of the script, and the words of a line.
use super::rows::Rows;
use super::steps::{asked_by, step, void};
use session::Session;
use std::io;
use testing::script::repeated;

// Does a word as often as it says; the session then.
fn word<R: Print>(rt: &R, word: &str, from: Session, rows: &mut Rows) -> io::Result<Session> {
    let mut session = from;
    let (once, times) = repeated(word);
    let asked = asked_by(once);
    for _ in 0..times {
        let (then, said) = step(session, asked);
        session = then;
        rows.tell(rt, said)?;
    }
    Ok(session)
}

// Does the words that follow spaces in a text; the session then.
fn words<R: Print>(rt: &R, text: &str, from: Session, rows: &mut Rows) -> io::Result<Session> {
    let mut session = from;
    for next in text.split(' ').skip(1) {
        session = word(rt, next, session, rows)?;
    }
    Ok(session)
}

// One case: the words that it starts with, then its own.
fn case<R: Print>(rt: &R, line: &str, start: &str) -> io::Result<()> {
    let (label, own) = line.split_once(':').unwrap_or((line, ""));
    let mut rows = Rows::new();
    rt.print(label)?;
    let session = words(rt, start, void(), &mut rows)?;
    words(rt, own, session, &mut rows)?;
    rows.show(rt)?;
    println!(rt)
}

// All lines: one that starts with = has the words that the cases below it start with.
pub fn run<R: Print>(rt: &R, script: &str) -> io::Result<()> {
    let mut start = "";
    for line in script.lines() {
        match line.chars().next() {
            None | Some('#') => {}
            Some('=') => start = line,
            Some(_) => case(rt, line, start)?,
        }
    }
    Ok(())
}
