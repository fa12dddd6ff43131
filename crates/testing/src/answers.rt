// What judging answers and what a writer replies, and the words for it.
use refusals::Refusal;
use std::fmt;

// A value, none, or why it is refused.
pub type Judged = Result<Option<u64>, Refusal>;

// How long the file is that a writer wrote, or why it wrote none.
pub type Written = Result<u32, Refusal>;

// A refusal in words.
#[derive(Clone, Copy)]
pub struct Refused(pub Refusal);

impl fmt::Display for Refused {
    fn fmt<W: fmt::Write>(&self, f: &mut fmt::Formatter<W>) -> fmt::Result {
        write!(f, "refused {}", u8::from(self.0))
    }
}

// An answer of judging in words.
#[derive(Clone, Copy)]
pub struct Answer(pub Judged);

impl fmt::Display for Answer {
    fn fmt<W: fmt::Write>(&self, f: &mut fmt::Formatter<W>) -> fmt::Result {
        match self.0 {
            Ok(Some(value)) => write!(f, "value {value}"),
            Ok(None) => f.write_str("none"),
            Err(why) => write!(f, "{}", Refused(why)),
        }
    }
}

// The reply of a writer in words.
#[derive(Clone, Copy)]
pub struct Reply(pub Written);

impl fmt::Display for Reply {
    fn fmt<W: fmt::Write>(&self, f: &mut fmt::Formatter<W>) -> fmt::Result {
        match self.0 {
            Ok(length) => write!(f, "length {length}"),
            Err(why) => write!(f, "{}", Refused(why)),
        }
    }
}
