// The solver for callers in C: each slice is a pointer and a count. The pointer of an empty slice is not null either.
#![tactic(auto)]

ghost use Rattle.cert_instances.specs.Certify.{CertifyOutcome};

use checks::HeldSetting;

#[unsafe(no_mangle)]
pub extern "C" fn solver_certify(
    question: u8,
    n: u8,
    s: u8,
    t: u8,
    records: &[u32],
    numbers: &mut [i32],
    amounts: &mut [u16],
) -> u8
    ensures { CertifyOutcome (record { question = question; n = n; s = s; t = t }) records.now numbers.old amounts.old numbers.new amounts.new result }
{
    let st = HeldSetting { question, n, s, t };
    solver::claim_number(solver::certify(st, records, numbers, amounts))
}
