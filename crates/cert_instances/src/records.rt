// Records of arcs: whether the solver answers them, and how they are packed for a flow search.
ghost use Rattle.std.specs.Prelude.{◌≡◌, map, length};
ghost use Rattle.prelude.specs.Lists.{all};
ghost use Rattle.arc_records.specs.Arcs.{arc_held};
ghost use Rattle.network.specs.Question.{asks};
ghost use Rattle.checks.specs.Held.{asked, question_held};
ghost use Rattle.cert_instances.specs.Certify.{admissible, record_ok, capacity_for, packed_for};

use arc_records::{MOST_ARCS, Record, arc_in};
use checks::rows::{Question, question_of, unit_cost};
use checks::{HeldSetting, Opening, opening_check};
use reading::arc_check;

// The capacity of an arc as a flow search is told it.
fn capacity_of(question: Question, arc: Record) -> u32
    ensures { result ≡ capacity_for (question_held question) (arc_held arc) }
{
    match question {
        Question::Path => 1,
        Question::Flow => arc.weight,
        Question::Assignment | Question::Acyclicity | Question::Unasked => 0,
    }
}

// The arc of a record, packed with its cost and its capacity.
fn packed_arc(question: Question, word: u32) -> u64
    ensures { result ≡ packed_for (question_held question) word }
{
    let arc = arc_in(word);
    let tail = u64::from(arc.tail);
    let head = u64::from(arc.head);
    let cost = u64::from(unit_cost(question, arc));
    let capacity = u64::from(capacity_of(question, arc));
    tail + 256 * head + 65536 * cost + 4294967296 * capacity
}

// The packed arcs of the records, in order.
pub fn pack(st: HeldSetting, records: &[u32], arcs: &mut [u64])
    requires { length arcs.old ≡ length records.now }
    ensures { arcs.new ≡ map (packed_for (asks (asked st))) records.now }
{
    let question = question_of(u32::from(st.question));
    for (e, word) in records.iter().enumerate() {
        arcs[e] = packed_arc(question, *word);
    }
}

// Do checks 7 and 8 let the record through?
fn record_ok(st: HeldSetting, word: u32) -> bool
    ensures { result ≡ record_ok (asked st) word }
{
    arc_check(st, arc_in(word)).is_ok()
}

// Do they let every record through?
fn records_ok(st: HeldSetting, records: &[u32]) -> bool
    ensures { result ≡ all (record_ok (asked st)) records.now }
{
    records.iter().all(|word| record_ok(st, *word))
}

// Is this what the solver answers?
pub fn is_admissible(st: HeldSetting, records: &[u32], numbers: usize, amounts: usize) -> bool
    ensures { result ≡ admissible (asked st) records.now numbers amounts }
{
    opening_check(Opening::from(st)).is_ok()
        && records.len() <= MOST_ARCS as usize
        && numbers == usize::from(st.n)
        && amounts == records.len()
        && records_ok(st, records)
}
