// For test programs: another implementation of the four questions, and networks that look random to try it on.
#![tactic(auto)]

use arcs::Arc;
use instances::{Net, Question};

pub mod arcs;
pub mod discharges;
pub mod instances;
pub mod loops;
pub mod network_files;
pub mod pairings;
pub mod pairs;
pub mod paths;
pub mod random;
pub mod routes;
pub mod shapes;

// The true answer of a network with these arcs.
pub fn truth(net: Net, arcs: &[Arc]) -> Option<u64> {
    match net.question {
        Question::Route => routes::lengths(arcs, net.n, net.s)[usize::from(net.t)],
        Question::Discharge => Some(discharges::greatest(arcs, net.s, net.t)),
        Question::Pairing => pairings::least(arcs, net.s, net.n),
        Question::Loops => loops::zero_or_none(arcs, net.n),
    }
}
