// Certificates for acyclicity: the ranks of a topological order, or the arcs of a cycle.
#![tactic(auto)]

ghost use Rattle.std.specs.Prelude.{◌≡◌, length};
ghost use Rattle.arc_records.specs.Arcs.{word_arcs};
ghost use Rattle.network.specs.Question.{acyclicity, asks, Admissible};
ghost use Rattle.checks.specs.Held.{asked};
ghost use Rattle.cert_instances.specs.Certify.{claimed, Solution};

use arc_records::MOST_VERTICES;
use cert_instances::Claim;
use cert_instances::vertices::{NumberKind, write};
use checks::HeldSetting;
use order_path::Found;

// What is found, and numbers and amounts that certify it.
fn answer_acyclicity(
    st: HeldSetting,
    records: &[u32],
    ranks: &mut [u32],
    numbers: &mut [i32],
    amounts: &mut [u16],
) -> Claim
    requires admissible { Admissible (asked st) (word_arcs records.now) × (asks (asked st) ≡ acyclicity) }
    requires amounts_len { (length amounts.old ≡ length records.now) × (length numbers.old ≡ st.n) × (length ranks.old ≡ st.n) }
    ensures { Solution (asked st) (word_arcs records.now) numbers.new amounts.new (claimed result) }
{
    let found = order_acyclicity::search(records, ranks, amounts).unwrap();
    write(NumberKind::Potential, ranks, numbers);
    match found {
        Found::Order => Claim::Value,
        Found::Cycle => Claim::None,
    }
}

// The same, with an array of its own to work in. Much as for an assignment, but with another search and another array.
pub fn certify_acyclicity(
    st: HeldSetting,
    records: &[u32],
    numbers: &mut [i32],
    amounts: &mut [u16],
) -> Claim
    requires admissible { Admissible (asked st) (word_arcs records.now) × (asks (asked st) ≡ acyclicity) }
    requires amounts_len { (length amounts.old ≡ length records.now) × (length numbers.old ≡ st.n) }
    ensures { Solution (asked st) (word_arcs records.now) numbers.new amounts.new (claimed result) }
{
    let n = numbers.len();
    let mut ranks = [0u32; MOST_VERTICES as usize];
    answer_acyclicity(st, records, &mut ranks[..n], numbers, amounts)
}
