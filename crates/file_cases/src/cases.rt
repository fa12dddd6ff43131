// The lines of the script, and the words of a line.
use super::calls::{show_help, show_judged, show_scheduled};
use super::files::{File, Files};
use super::sweeps::{Target, show_changes, show_cuts};
use std::alloc::{AllocError, Global};
use std::io;
use testing::script::{hexadecimal, number, numbers, repeated};

// What a case has come to: its files, its windows, and whether the line has shown a result.
#[derive(Drop)]
struct Case {
    files: Files,
    windows: Vec<[u32; 3]>,
    shown: bool,
}

impl Case {
    // A case that starts from two files, in hexadecimal.
    fn start(alloc: Global, net: &str, ann: &str) -> Result<Case, AllocError> {
        Ok(Case {
            files: Files {
                net: File::new(alloc, hexadecimal(alloc, net)?.as_slice())?,
                ann: File::new(alloc, hexadecimal(alloc, ann)?.as_slice())?,
            },
            windows: Vec::new(alloc),
            shown: false,
        })
    }

    // Adds a window, as often as the word says.
    fn add_windows(&mut self, word: &str) -> Result<(), AllocError> {
        let (list, times) = repeated(word);
        for _ in 0..times {
            self.windows.push(numbers(list))?;
        }
        Ok(())
    }

    // Shows the result that a word asks for.
    fn show<R: Print + AllocGlobal>(&mut self, rt: &R, letter: char, rest: &str) -> io::Result<()> {
        rt.print(if self.shown { ", " } else { ": " })?;
        self.shown = true;
        let target = Target::named(rest.chars().next());
        match letter {
            '@' => show_judged(rt, rest, &self.files),
            'h' => show_help(rt, rest, &mut self.files),
            't' => show_scheduled(rt, rest, &mut self.files, self.windows.as_slice()),
            '<' => show_cuts(rt, target, &self.files),
            _ => {
                let (_, front) = rest.split_at_checked(1).unwrap_or((rest, ""));
                show_changes(rt, target, &mut self.files, number(front))
            }
        }
    }

    // Does what a word says.
    fn word<R: Print + AllocGlobal>(&mut self, rt: &R, letter: char, rest: &str) -> io::Result<()> {
        match letter {
            'n' => self.files.net.change(rt.alloc(), rest, 4)?,
            'a' => self.files.ann.change(rt.alloc(), rest, 6)?,
            'w' => self.add_windows(rest)?,
            _ => return self.show(rt, letter, rest),
        }
        Ok(())
    }
}

// One case: a label, a colon, and words.
fn run_case<R: Print + AllocGlobal>(rt: &R, line: &str, net: &str, ann: &str) -> io::Result<()> {
    let (label, words) = line.split_once(':').unwrap_or((line, ""));
    let mut case = Case::start(rt.alloc(), net, ann)?;
    rt.print(label)?;
    for word in words.split_whitespace() {
        let (first, rest) = word.split_at_checked(1).unwrap_or((word, ""));
        if let Some(letter) = first.chars().next() {
            case.word(rt, letter, rest)?;
        }
    }
    println!(rt)
}

// All lines: a network, an annotation, a comment or a case.
pub fn run<R: Print + AllocGlobal>(rt: &R, script: &str) -> io::Result<()> {
    let (mut net, mut ann) = ("", "");
    for line in script.lines() {
        if let Some(bytes) = line.strip_prefix("NETWORK ") {
            net = bytes;
        } else if let Some(bytes) = line.strip_prefix("ANNOTATION ") {
            ann = bytes;
        } else if !line.is_empty() && !line.starts_with('#') {
            run_case(rt, line, net, ann)?;
        }
    }
    Ok(())
}
