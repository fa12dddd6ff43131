// Equal answers in a row, which are printed as one with their number.
use super::steps::Said;
use std::io;

#[derive(Clone, Copy)]
struct Row {
    answer: Said,
    count: usize,
}

// The row of the answer that came last, and whether the line shows others before it.
#[derive(Drop)]
pub struct Rows {
    last: Option<Row>,
    shown: bool,
}

impl Rows {
    pub fn new() -> Rows {
        Rows {
            last: None,
            shown: false,
        }
    }

    // Prints the row.
    pub fn show<R: Print>(&mut self, rt: &R) -> io::Result<()> {
        let Some(Row { answer, count }) = self.last.take() else {
            return Ok(());
        };
        rt.print(if self.shown { ", " } else { ": " })?;
        self.shown = true;
        if 1 < count {
            print!(rt; "{count} times ")?;
        }
        print!(rt; "{answer}")
    }

    // One more answer: in the row, or the first of another.
    pub fn tell<R: Print>(&mut self, rt: &R, answer: Said) -> io::Result<()> {
        let last = self.last;
        let count = match last {
            Some(row) if row.answer == answer => row.count.saturating_add(1),
            _ => {
                self.show(rt)?;
                1
            }
        };
        self.last = Some(Row { answer, count });
        Ok(())
    }
}
