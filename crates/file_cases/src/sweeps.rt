// A file cut to every shorter length, or with every byte of its front changed in every way: how often each outcome comes.
use super::files::{File, Files};
use judging::judge;
use points::Point;
use std::alloc::{AllocError, Global};
use std::io;
use test_calls::writers::{annotate, filled};
use testing::answers::Judged;
use testing::tally::add;

// The file that is varied, and what is called then: judging, or the helper on the network.
#[derive(Clone, Copy, PartialEq, Eq)]
pub enum Target {
    Network,
    Annotation,
    Helper,
}

impl Target {
    pub fn named(letter: Option<char>) -> Target {
        match letter {
            Some('a') => Target::Annotation,
            Some('h') => Target::Helper,
            _ => Target::Network,
        }
    }

    pub fn file(self, files: &Files) -> &File {
        match self {
            Target::Annotation => &files.ann,
            _ => &files.net,
        }
    }

    fn file_mut(self, files: &mut Files) -> &mut File {
        match self {
            Target::Annotation => &mut files.ann,
            _ => &mut files.net,
        }
    }
}

// What comes of judging or of the helper, which may be that it changed bytes that it had to keep.
#[derive(Clone, Copy, PartialEq, Eq)]
enum Outcome {
    Judged(Judged),
    Annotated,
    Touched,
}

// An array by the refusals' numbers, since it is printed by number.
// How often the same outcome came as that of the files as they were, how often each refusal, by its number, and how often any other.
#[derive(Drop)]
struct Counts {
    same: usize,
    refused: [usize; 32],
    other: usize,
}

impl Counts {
    fn count(&mut self, usual: Outcome, outcome: Outcome) {
        if outcome == usual {
            return add(&mut self.same, 1);
        }
        match outcome {
            Outcome::Judged(Err(why)) => add(&mut self.refused[usize::from(u8::from(why) % 32)], 1),
            _ => add(&mut self.other, 1),
        }
    }

    fn show<R: Print>(&self, rt: &R) -> io::Result<()> {
        print!(rt; "{} same, {} other", self.same, self.other)?;
        for (k, count) in self.refused.iter().enumerate() {
            if *count != 0 {
                print!(rt; ", {count} refused {k}")?;
            }
        }
        Ok(())
    }
}

// What comes of the helper with a buffer of 100 bytes.
fn helped(alloc: Global, net: &[u8]) -> Result<Outcome, AllocError> {
    let before = filled(alloc, 100)?;
    let output = annotate(alloc, net, before.as_slice())?;
    Ok(match output.reply {
        _ if !output.rest_kept => Outcome::Touched,
        Ok(_) => Outcome::Annotated,
        Err(why) => Outcome::Judged(Err(why)),
    })
}

// What comes of the helper, or of judging at the points 9 and 8, with these bytes.
fn outcome_of(
    alloc: Global,
    target: Target,
    net: &[u8],
    ann: &[u8],
) -> Result<Outcome, AllocError> {
    if target == Target::Helper {
        return helped(alloc, net);
    }
    let point = Point {
        first: 9,
        second: 8,
    };
    Ok(Outcome::Judged(judge(net, ann, point)))
}

// The same with the files of a case.
fn whole(alloc: Global, target: Target, files: &Files) -> Result<Outcome, AllocError> {
    outcome_of(alloc, target, files.net.bytes(), files.ann.bytes())
}

// The same with one file cut.
fn cut(alloc: Global, target: Target, files: &Files, length: usize) -> Result<Outcome, AllocError> {
    match target {
        Target::Annotation => outcome_of(alloc, target, files.net.bytes(), files.ann.start(length)),
        _ => outcome_of(alloc, target, files.net.start(length), files.ann.bytes()),
    }
}

// The same with a byte of a file changed for this once, None where it is as it was.
fn changed(
    alloc: Global,
    target: Target,
    files: &mut Files,
    at: usize,
    byte: u8,
) -> Result<Option<Outcome>, AllocError> {
    let old = target.file(files).byte(at);
    if old == byte {
        return Ok(None);
    }
    target.file_mut(files).put(at, &[byte]);
    let outcome = whole(alloc, target, files)?;
    target.file_mut(files).put(at, &[old]);
    Ok(Some(outcome))
}

// Nothing is counted yet.
fn none_yet() -> Counts {
    Counts {
        same: 0,
        refused: [0; 32],
        other: 0,
    }
}

// Cuts a file to each shorter length.
pub fn show_cuts<R: Print + AllocGlobal>(rt: &R, target: Target, files: &Files) -> io::Result<()> {
    let usual = whole(rt.alloc(), target, files)?;
    let mut counts = none_yet();
    for length in 0..target.file(files).len() {
        counts.count(usual, cut(rt.alloc(), target, files, length)?);
    }
    counts.show(rt)
}

// Changes one byte in each way.
fn count_changes(
    alloc: Global,
    target: Target,
    files: &mut Files,
    at: usize,
    counts: &mut Counts,
    usual: Outcome,
) -> Result<(), AllocError> {
    for byte in 0..=255u8 {
        if let Some(outcome) = changed(alloc, target, files, at, byte)? {
            counts.count(usual, outcome);
        }
    }
    Ok(())
}

// Changes each of the first bytes of a file in each way.
pub fn show_changes<R: Print + AllocGlobal>(
    rt: &R,
    target: Target,
    files: &mut Files,
    front: u32,
) -> io::Result<()> {
    let usual = whole(rt.alloc(), target, files)?;
    let mut counts = none_yet();
    for at in 0..front as usize {
        count_changes(rt.alloc(), target, files, at, &mut counts, usual)?;
    }
    counts.show(rt)
}
