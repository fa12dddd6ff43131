// A certificate for a flow: as much is sent as goes.
#![tactic(auto)]

ghost use Rattle.std.specs.Prelude.{◌≡◌, length};
ghost use Rattle.arc_records.specs.Arcs.{word_arcs};
ghost use Rattle.network.specs.Question.{maximum_flow, asks, Admissible};
ghost use Rattle.checks.specs.Held.{asked};
ghost use Rattle.cert_instances.specs.Certify.{claimed, Solution};

use arc_records::{MOST_ARCS, MOST_VERTICES};
use cert_instances::Claim;
use cert_instances::records::pack;
use cert_instances::vertices::{NumberKind, write};
use checks::HeldSetting;

// More units than all arcs together can carry.
const PLENTY: u32 = 134213633;

// Numbers and amounts that certify a greatest flow.
fn answer_flow(
    st: HeldSetting,
    records: &[u32],
    arcs: &mut [u64],
    key: &mut [u32],
    numbers: &mut [i32],
    amounts: &mut [u16],
) -> Claim
    requires admissible { Admissible (asked st) (word_arcs records.now) × (asks (asked st) ≡ maximum_flow) }
    requires amounts_len { (length amounts.old ≡ length records.now) × (length numbers.old ≡ st.n) }
    requires arcs_len { (length arcs.old ≡ length records.now) × (length key.old ≡ st.n) }
    ensures { Solution (asked st) (word_arcs records.now) numbers.new amounts.new (claimed result) }
{
    let s = st.s as usize;
    let t = st.t as usize;
    pack(st, records, arcs);
    // never refused: an admissible network is within the limits
    let _ = flow_maximum::solve(arcs, s, t, PLENTY, amounts, key);
    write(NumberKind::Mark, key, numbers);
    Claim::Value
}

// The same, with arrays of its own to work in.
pub fn certify_flow(
    st: HeldSetting,
    records: &[u32],
    numbers: &mut [i32],
    amounts: &mut [u16],
) -> Claim
    requires admissible { Admissible (asked st) (word_arcs records.now) × (asks (asked st) ≡ maximum_flow) }
    requires amounts_len { (length amounts.old ≡ length records.now) × (length numbers.old ≡ st.n) }
    ensures { Solution (asked st) (word_arcs records.now) numbers.new amounts.new (claimed result) }
{
    let n = numbers.len();
    let m = records.len();
    let mut arcs = [0u64; MOST_ARCS as usize];
    let mut key = [0u32; MOST_VERTICES as usize];
    answer_flow(st, records, &mut arcs[..m], &mut key[..n], numbers, amounts)
}
