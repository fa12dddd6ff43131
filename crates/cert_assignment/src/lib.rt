// Certificates for an assignment: a matching of least cost that saturates the sites, with its potentials, or marks that show that there is none.
#![tactic(auto)]

ghost use Rattle.std.specs.Prelude.{◌≡◌, length};
ghost use Rattle.arc_records.specs.Arcs.{word_arcs};
ghost use Rattle.network.specs.Question.{assignment, asks, Admissible};
ghost use Rattle.checks.specs.Held.{asked};
ghost use Rattle.cert_instances.specs.Certify.{claimed, Solution};

use arc_records::MOST_VERTICES;
use cert_instances::Claim;
use cert_instances::vertices::{NumberKind, write};
use checks::{HeldSetting, pumps};
use match_least_cost::{Match, solve};

// What is found, and numbers and amounts that certify it.
fn answer_assignment(
    st: HeldSetting,
    records: &[u32],
    pi: &mut [u32],
    numbers: &mut [i32],
    amounts: &mut [u16],
) -> Claim
    requires admissible { Admissible (asked st) (word_arcs records.now) × (asks (asked st) ≡ assignment) }
    requires amounts_len { (length amounts.old ≡ length records.now) × (length numbers.old ≡ st.n) × (length pi.old ≡ st.n) }
    ensures { Solution (asked st) (word_arcs records.now) numbers.new amounts.new (claimed result) }
{
    match solve(records, pumps(st) as usize, pi, amounts) {
        Ok(Match::Saturating) => {
            write(NumberKind::Potential, pi, numbers);
            Claim::Value
        }
        Ok(Match::Deficient) => {
            write(NumberKind::Potential, pi, numbers);
            Claim::None
        }
        Err(_) => unreachable!(),
    }
}

// The same, with an array of its own to work in. As for orders, with another search: one function for both would only hand these on.
pub fn certify_assignment(
    st: HeldSetting,
    records: &[u32],
    numbers: &mut [i32],
    amounts: &mut [u16],
) -> Claim
    requires admissible { Admissible (asked st) (word_arcs records.now) × (asks (asked st) ≡ assignment) }
    requires amounts_len { (length amounts.old ≡ length records.now) × (length numbers.old ≡ st.n) }
    ensures { Solution (asked st) (word_arcs records.now) numbers.new amounts.new (claimed result) }
{
    let n = numbers.len();
    let mut pi = [0u32; MOST_VERTICES as usize];
    answer_assignment(st, records, &mut pi[..n], numbers, amounts)
}
