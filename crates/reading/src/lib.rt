// Checks 6, 7 and 8 of an arc that is read or repeated (PANEL 6), each as a total function whose contract is the test of the network's definitions.
#![tactic(auto)]

ghost use Rattle.std.specs.Prelude.{◌≡◌};
ghost use Rattle.prelude.specs.Checks.{first_broken};
ghost use Rattle.refusals.specs.Refusals.{why};
ghost use Rattle.arc_records.specs.Arcs.{arc_held};
ghost use Rattle.network.specs.Tests.{sides_for, joins_ok, arc_checks, reading_checks};
ghost use Rattle.checks.specs.Held.{asked, question_held};

use arc_records::{MOST_ARCS, MOST_WEIGHT, Record};
use checks::rows::{Question, question_of};
use checks::{HeldSetting, pumps};
use refusals::Refusal;

// 7: does the arc lead from a pump to a site, for an assignment?
fn sides_ok(question: Question, st: HeldSetting, arc: Record) -> bool
    ensures { result ≡ sides_for (question_held question) (asked st) (arc_held arc) }
{
    let first_site = u32::from(pumps(st));
    match question {
        Question::Path | Question::Flow | Question::Acyclicity => true,
        Question::Assignment => arc.tail < first_site && first_site <= arc.head,
        Question::Unasked => false,
    }
}

// 7: are the ends of an arc vertices, from a pump to a site for an assignment?
fn joins_ok(st: HeldSetting, arc: Record) -> bool
    ensures { result ≡ joins_ok (asked st) (arc_held arc) }
{
    let n = u32::from(st.n);
    arc.tail < n && arc.head < n && sides_ok(question_of(u32::from(st.question)), st, arc)
}

// The first check that refuses the arc: 7 or 8.
pub fn arc_check(st: HeldSetting, arc: Record) -> Result<(), Refusal>
    ensures { why result ≡ first_broken (arc_checks (asked st) (arc_held arc)) }
{
    if !joins_ok(st, arc) {
        return Err(Refusal::ArcNotAllowed);
    }
    if MOST_WEIGHT < arc.weight {
        return Err(Refusal::WeightTooLarge);
    }
    Ok(())
}

// The first check that refuses the arc to be read after so many others: 6, 7 or 8.
pub fn reading_check(st: HeldSetting, count: u32, arc: Record) -> Result<(), Refusal>
    ensures { why result ≡ first_broken (reading_checks (asked st) count (arc_held arc)) }
{
    if MOST_ARCS <= count {
        return Err(Refusal::TooManyArcs);
    }
    arc_check(st, arc)
}
