// Finds a certificate for every network that a session accepts.
#![tactic(auto)]

ghost use Rattle.std.specs.Prelude.{◌≡◌};
ghost use Rattle.checks.specs.Held.{asked};
ghost use Rattle.cert_instances.specs.Certify.{finding_number, CertifyOutcome};

use cert_acyclicity::certify_acyclicity;
use cert_assignment::certify_assignment;
use cert_flow::certify_flow;
use cert_instances::records::is_admissible;
use cert_instances::{Claim, Inadmissible};
use cert_path::certify_path;
use checks::HeldSetting;
use checks::rows::{Question, question_of};

// The number of the claim: 1 for a value, 2 for none; 0 for a refusal.
pub fn claim_number(found: Result<Claim, Inadmissible>) -> u8
    ensures { result ≡ finding_number found }
{
    match found {
        Ok(claim) => u8::from(claim),
        Err(Inadmissible) => 0,
    }
}

// A certificate for the network of the records: what is claimed, with node numbers and amounts. Where the input is not admissible nothing is changed.
pub fn certify(
    st: HeldSetting,
    records: &[u32],
    numbers: &mut [i32],
    amounts: &mut [u16],
) -> Result<Claim, Inadmissible>
    ensures { CertifyOutcome (asked st) records.now numbers.old amounts.old numbers.new amounts.new (finding_number result) }
{
    let question = question_of(st.question as u32);
    if !is_admissible(st, records, numbers.len(), amounts.len()) {
        return Err(Inadmissible);
    }
    match question {
        Question::Path => Ok(certify_path(st, records, numbers, amounts)),
        Question::Flow => Ok(certify_flow(st, records, numbers, amounts)),
        Question::Assignment => Ok(certify_assignment(st, records, numbers, amounts)),
        Question::Acyclicity => Ok(certify_acyclicity(st, records, numbers, amounts)),
        Question::Unasked => Err(Inadmissible),
    }
}
