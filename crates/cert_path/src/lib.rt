// A certificate for a path: one unit is sent along it.
#![tactic(auto)]

ghost use Rattle.std.specs.Prelude.{◌≡◌, length};
ghost use Rattle.arc_records.specs.Arcs.{word_arcs};
ghost use Rattle.network.specs.Question.{shortest_path, asks, Admissible};
ghost use Rattle.checks.specs.Held.{asked};
ghost use Rattle.cert_instances.specs.Certify.{claimed, Solution};

use arc_records::{MOST_ARCS, MOST_VERTICES};
use cert_instances::Claim;
use cert_instances::records::pack;
use cert_instances::vertices::{NumberKind, stand, write};
use checks::HeldSetting;

// What is found, and numbers and amounts that certify it, for a path.
fn answer_path(
    st: HeldSetting,
    records: &[u32],
    left: &mut [u32],
    key: &mut [u32],
    numbers: &mut [i32],
    amounts: &mut [u16],
) -> Claim
    requires admissible { Admissible (asked st) (word_arcs records.now) × (asks (asked st) ≡ shortest_path) }
    requires amounts_len { (length amounts.old ≡ length records.now) × (length numbers.old ≡ st.n) }
    requires left_len { (length left.old ≡ st.n) × (length key.old ≡ st.n) }
    ensures { Solution (asked st) (word_arcs records.now) numbers.new amounts.new (claimed result) }
{
    let t = st.t as usize;
    let m = records.len();
    let mut arcs = [0u64; MOST_ARCS as usize];
    pack(st, records, &mut arcs[..m]);
    stand(st.s, left);
    match flow_path::send(&arcs[..m], t, 1, amounts, left, key) {
        Ok(Some(_)) => {
            write(NumberKind::Distance, key, numbers);
            Claim::Value
        }
        Ok(None) => {
            write(NumberKind::Mark, key, numbers);
            Claim::None
        }
        Err(_) => unreachable!(),
    }
}

// The same, with arrays of its own to work in.
pub fn certify_path(
    st: HeldSetting,
    records: &[u32],
    numbers: &mut [i32],
    amounts: &mut [u16],
) -> Claim
    requires admissible { Admissible (asked st) (word_arcs records.now) × (asks (asked st) ≡ shortest_path) }
    requires amounts_len { (length amounts.old ≡ length records.now) × (length numbers.old ≡ st.n) }
    ensures { Solution (asked st) (word_arcs records.now) numbers.new amounts.new (claimed result) }
{
    let n = numbers.len();
    let mut left = [0u32; MOST_VERTICES as usize];
    let mut key = [0u32; MOST_VERTICES as usize];
    answer_path(st, records, &mut left[..n], &mut key[..n], numbers, amounts)
}
