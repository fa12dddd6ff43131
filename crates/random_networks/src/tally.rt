// What is counted of the networks of a question, and how it is shown. The names are a list on standard input: the four questions, what is
// counted of the networks, what is counted of twists, the kinds of twists, the last of these for a pairing, and what is counted of twists at
// the key of an arc.
use super::twists::{KINDS, Kind};
use reference::instances::Question;
use std::io;
use testing::names::{name, print_counts};
use testing::tally;

// What came of a twisted annotation: a refusal, the true answer, or what ought not to come of it.
#[derive(Clone, Copy, PartialEq, Eq)]
pub enum Came {
    Refused,
    Right,
    Wrong,
}

// Twisted annotations of a kind.
#[derive(Clone, Copy)]
pub struct Twists {
    refused: usize,
    right: usize,
    wrong: usize,
}

// Twisted annotations in which the arc stands whose key is known: all, those refused 14 away from the key, those refused 14 where both
// points are the key, and answers with one point the key that are others than away from it.
#[derive(Clone, Copy)]
pub struct Collided {
    pub twists: usize,
    pub seen: usize,
    pub seen_at_both: usize,
    pub wrong: usize,
}

#[derive(Drop)]
pub struct Tally {
    pub networks: tally::Tally,
    pub judged: usize,
    pub self_loops: usize,
    pub wrong: usize,
    pub twists: [Twists; KINDS.len()],
    pub collided: Collided,
}

impl Tally {
    pub fn new() -> Tally {
        let twists = Twists {
            refused: 0,
            right: 0,
            wrong: 0,
        };
        Tally {
            networks: tally::Tally::new(),
            judged: 0,
            self_loops: 0,
            wrong: 0,
            twists: [twists; KINDS.len()],
            collided: Collided {
                twists: 0,
                seen: 0,
                seen_at_both: 0,
                wrong: 0,
            },
        }
    }

    // Counts what came of a twist.
    pub fn count_twist(&mut self, kind: Kind, came: Came) {
        let twists = &mut self.twists[kind as usize];
        tally::add(
            match came {
                Came::Refused => &mut twists.refused,
                Came::Right => &mut twists.right,
                Came::Wrong => &mut twists.wrong,
            },
            1,
        );
        tally::add(&mut self.wrong, usize::from(came == Came::Wrong));
    }

    // What came of each kind of twist.
    fn show_twists<R: Print>(&self, rt: &R, names: &str, question: Question) -> io::Result<()> {
        for (kind, twists) in KINDS.iter().zip(&self.twists) {
            let kind_name = name(names, name_place(question, *kind));
            print!(rt; "  {kind_name}")?;
            print_counts(rt, names, 10, &[twists.refused, twists.right, twists.wrong])?;
        }
        Ok(())
    }

    // What came of twists at the key of an arc.
    fn show_collided<R: Print>(&self, rt: &R, names: &str) -> io::Result<()> {
        let Collided {
            twists,
            seen,
            seen_at_both,
            wrong,
        } = self.collided;
        let at_key = name(names, 22);
        print!(rt; "  {at_key}")?;
        print_counts(rt, names, 23, &[twists, seen, seen_at_both, wrong])
    }

    // Sums up the networks of one question.
    pub fn show<R: Print>(&self, rt: &R, names: &str, question: Question) -> io::Result<()> {
        let tally::Tally {
            networks,
            values,
            nones,
        } = self.networks;
        rt.print(name(names, (question as usize).saturating_sub(1)))?;
        let counts = [
            networks,
            values,
            nones,
            self.judged,
            self.self_loops,
            self.wrong,
        ];
        print_counts(rt, names, 4, &counts)?;
        self.show_twists(rt, names, question)?;
        self.show_collided(rt, names)
    }
}

// Where the name of a kind of twist stands.
fn name_place(question: Question, kind: Kind) -> usize {
    if question == Question::Pairing && kind == Kind::Given {
        return 21;
    }
    13 + kind as usize
}
