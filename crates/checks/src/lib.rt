// The rows of rules (PANEL 5), and checks 1, 2 and 3 of opening (PANEL 6), each as a total function whose contract is the test of the network's definitions.
#![tactic(auto)]

ghost use Rattle.std.specs.Prelude.{◌≡◌};
ghost use Rattle.prelude.specs.Checks.{first_broken};
ghost use Rattle.refusals.specs.Refusals.{why};
ghost use Rattle.network.specs.Question.{pumps};
ghost use Rattle.network.specs.Tests.{is_asked, size_ok, two_vertices, both_zero, pumps_and_sites, ends_for, opening_checks};
ghost use Rattle.checks.specs.Held.{handed, asked, question_held};

use arc_records::MOST_VERTICES;
use refusals::Refusal;
use rows::{Question, question_of};

pub mod rows;

// What opening is handed but for the points: the question's number, how many vertices there are, the source and the sink.
#[derive(Clone, Copy, Debug, PartialEq, Eq)]
pub struct Opening {
    pub question: u32,
    pub n: u32,
    pub s: u32,
    pub t: u32,
}

// The same once opening has accepted it: every number fits eight bits then.
#[derive(Clone, Copy, Debug, PartialEq, Eq)]
pub struct HeldSetting {
    pub question: u8,
    pub n: u8,
    pub s: u8,
    pub t: u8,
}

// The same as opening is handed it.
impl From<HeldSetting> for Opening {
    ghost from_gives = { λ st o. handed o ≡ asked st };

    fn from(st: HeldSetting) -> Opening {
        Opening {
            question: u32::from(st.question),
            n: u32::from(st.n),
            s: u32::from(st.s),
            t: u32::from(st.t),
        }
    }
}

// How many pumps there are.
pub fn pumps(st: HeldSetting) -> u8
    ensures { result ≡ pumps (asked st) }
{
    st.s
}

// 1: is there a question?
fn is_asked(question: Question) -> bool
    ensures { result ≡ is_asked (question_held question) }
{
    question != Question::Unasked
}

// 2: is n from 2 to 255?
fn size_ok(o: Opening) -> bool
    ensures { result ≡ size_ok (handed o) }
{
    2 <= o.n && o.n <= MOST_VERTICES
}

// 3: are s and t two different vertices?
fn two_vertices(o: Opening) -> bool
    ensures { result ≡ two_vertices (handed o) }
{
    o.s < o.n && o.t < o.n && o.s != o.t
}

// 3: are s and t both 0?
fn both_zero(o: Opening) -> bool
    ensures { result ≡ both_zero (handed o) }
{
    o.s == 0 && o.t == 0
}

// 3: is s a number of pumps, one at least, that leaves a site, and t 0?
fn pumps_and_sites(o: Opening) -> bool
    ensures { result ≡ pumps_and_sites (handed o) }
{
    1 <= o.s && o.s < o.n && o.t == 0
}

// 3: are s and t what the question asks for?
fn ends_ok(question: Question, o: Opening) -> bool
    ensures { result ≡ ends_for (question_held question) (handed o) }
{
    match question {
        Question::Path | Question::Flow => two_vertices(o),
        Question::Assignment => pumps_and_sites(o),
        Question::Acyclicity => both_zero(o),
        Question::Unasked => false,
    }
}

// The first check that refuses the opening: 1, 2 or 3.
pub fn opening_check(o: Opening) -> Result<(), Refusal>
    ensures { why result ≡ first_broken (opening_checks (handed o)) }
{
    let question = question_of(o.question);
    if !is_asked(question) {
        return Err(Refusal::UnknownQuestion);
    }
    if !size_ok(o) {
        return Err(Refusal::SizeOutOfRange);
    }
    if !ends_ok(question, o) {
        return Err(Refusal::EndsNotAllowed);
    }
    Ok(())
}
