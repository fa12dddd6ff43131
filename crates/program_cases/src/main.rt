// The lines of the judging, the annotating, the drawing and the scheduling program, for files that are there, short, long, missing or no files.
// The cases are lines of standard input, which says at its top how it is written.
#![tactic(auto)]

use plan_annotations::annotation_line::annotate_files;
use plan_files::answer_line::judge_files;
use plan_schedules::schedule_line::schedule_files;
use point_draw::make_point;
use program_io::front;
use program_io::line::Line;
use std::fs::Files;
use std::io::{self, Write};
use std::random::RandomSource;
use testing::names::name;

// The line of the judging program.
fn judged<R: Files>(files: &R, point_name: &str, net_name: &str, ann_name: &str) -> Line {
    let mut point = [0u8; 8];
    let mut net = front::room();
    let mut ann = front::room();
    judge_files(
        files,
        point_name.as_bytes(),
        net_name.as_bytes(),
        ann_name.as_bytes(),
        &mut point,
        &mut net,
        &mut ann,
    )
    .line
}

// The line of the annotating program.
fn annotated<R: Files>(files: &R, net_name: &str, ann_name: &str) -> Line {
    let mut net = front::room();
    let mut ann = front::room();
    annotate_files(
        files,
        net_name.as_bytes(),
        ann_name.as_bytes(),
        &mut net,
        &mut ann,
    )
    .line
}

// The line of the drawing program.
fn drawn<R: Files + RandomSource>(rt: &R, name: &str) -> Line {
    let mut random = [0u8; 128];
    let mut file = [0u8; 8];
    make_point(rt, name.as_bytes(), &mut random, &mut file).line
}

// The line of the scheduling program.
fn scheduled<R: Files>(
    files: &R,
    argument: &str,
    table_name: &str,
    net_name: &str,
    out_name: &str,
) -> Line {
    let mut table = [0u8; 32769];
    let mut net = front::room();
    let mut out = front::room();
    schedule_files(
        files,
        argument.as_bytes(),
        table_name.as_bytes(),
        net_name.as_bytes(),
        out_name.as_bytes(),
        &mut table,
        &mut net,
        &mut out,
    )
    .done
    .line
}

// The line of the program that a list with commas between begins with, for the names behind it.
fn line_of<R: Files + RandomSource>(rt: &R, list: &str) -> Line {
    let part = |k| name(list, k);
    match list.chars().next() {
        Some('j') => judged(rt, part(1), part(2), part(3)),
        Some('a') => annotated(rt, part(1), part(2)),
        Some('s') => scheduled(rt, part(1), part(2), part(3), part(4)),
        _ => drawn(rt, part(1)),
    }
}

// A line for each case: its label, and what a program prints.
fn run<R: Files + RandomSource + Print>(rt: &R, script: &str) -> io::Result<()> {
    for case in script.lines().filter(|line| !line.starts_with('#')) {
        if let Some((label, list)) = case.split_once(": ") {
            print!(rt; "{label}: ")?;
            io::writer(rt).write_all(line_of(rt, list).as_bytes())?;
        }
    }
    Ok(())
}

// All cases of the script.
fn run_all(rt: &HostRuntime) -> io::Result<()> {
    let script = io::read_to_string(rt.alloc(), rt.reader())?;
    run(rt, script.as_str())
}

// A script that cannot be read has no cases, and a line that cannot be printed is not told of.
fn main(rt: HostRuntime) {
    let _ = run_all(&rt);
}
