// All that is called of a session: opening and the six steps, and what they say.
use checks::Opening;
use points::Point;
use refusals::Refusal;
use session::{Reply, Session};
use std::fmt;
use testing::answers::{Answer, Judged};
use testing::script::numbers;

// A step is accepted, or finishing answers, or either is refused.
#[derive(Clone, Copy, PartialEq, Eq)]
pub enum Said {
    Accepted,
    Answered(Judged),
}

impl fmt::Display for Said {
    fn fmt<W: fmt::Write>(&self, f: &mut fmt::Formatter<W>) -> fmt::Result {
        match *self {
            Said::Accepted => f.write_str("accepted"),
            Said::Answered(answer) => write!(f, "{}", Answer(answer)),
        }
    }
}

impl From<Result<(), Refusal>> for Said {
    fn from(answer: Result<(), Refusal>) -> Said {
        match answer {
            Ok(()) => Said::Accepted,
            Err(why) => Said::Answered(Err(why)),
        }
    }
}

fn told(reply: Reply<()>) -> (Session, Said) {
    (reply.session, Said::from(reply.answer))
}

// Opening.
fn opened([question, n, s, t, first, second]: [u32; 6]) -> Reply<()> {
    Session::open(Opening { question, n, s, t }, Point { first, second })
}

// The session that a case starts with: void.
pub fn void() -> Session {
    opened([0; 6]).session
}

// A fingerprint extended by a key at a point.
fn extended([point, fingerprint, key]: [u32; 3]) -> Said {
    let print = field::extend(point, fingerprint, u64::from(key));
    Said::Answered(Ok(Some(u64::from(print))))
}

// What a word asks for: a letter and the numbers behind it.
#[derive(Clone, Copy)]
pub struct Asked {
    letter: Option<char>,
    numbers: [u32; 6],
}

pub fn asked_by(word: &str) -> Asked {
    let (letter, list) = word.split_at_checked(1).unwrap_or((word, ""));
    Asked {
        letter: letter.chars().next(),
        numbers: numbers(list),
    }
}

// The step that is asked for.
pub fn step(x: Session, asked: Asked) -> (Session, Said) {
    let [a, b, c, d, _, _] = asked.numbers;
    match asked.letter {
        Some('O') => told(opened(asked.numbers)),
        Some('R') => told(x.read_channel(a, b, c)),
        Some('E') => told(x.end_reading()),
        Some('C') => told(x.claim(a)),
        Some('Y') => told(x.node_number(a.cast_signed())),
        Some('A') => told(x.repeat_channel(a, b, c, d)),
        Some('F') => {
            let reply = x.finish();
            (reply.session, Said::Answered(reply.answer))
        }
        _ => (x, extended([a, b, c])),
    }
}
