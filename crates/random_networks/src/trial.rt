// One network: the helper annotates it, its annotation is judged, shuffled and twisted, and every answer is compared with the true one.
use super::annotations::{arc_at, exchange, node_number, size};
use super::collisions;
use super::places::{Case, PAIRS, others, pairs};
use super::tally::{Came, Tally};
use super::twists::{Due, KINDS, Kind, ROUNDS, Round, applies, twist};
use judging::judge;
use reference::arcs::{Arc, arcs};
use reference::instances::{Net, Question};
use reference::random::below;
use reference::{network_files, routes, truth};
use std::alloc::{AllocError, Global};
use test_calls::writers::{LONGEST_ANNOTATION, Output, annotate};
use testing::answers::Judged;
use testing::tally::add;

// How many networks are twisted.
const TWISTED_NETWORKS: usize = 640;

// The greatest node number of a route.
const HIGHEST: u64 = 8322818;

// Exchanges each arc with any.
fn shuffle(c: Case, ann: &mut [u8]) {
    let Net { n, count, .. } = c.net;
    for i in 0..count {
        exchange(ann, arc_at(n, i), arc_at(n, c.below(count, i, 7)));
    }
}

// Judges at each pair, and in another order of the arcs: how many answers are not the true one.
fn wrong_answers(c: Case, net: &[u8], ann: &mut [u8]) -> usize {
    let wrong = others(net, ann, &pairs(c), Ok(c.answer));
    shuffle(c, ann);
    wrong.saturating_add(others(net, ann, &[c.any_pair(7)], Ok(c.answer)))
}

// What came of a twisted annotation, where what had to come of it is known.
fn came(due: Due, said: Judged, answer: Option<u64>) -> Came {
    match said {
        Err(_) if due != Due::Right => Came::Refused,
        Ok(value) if due != Due::Refused && value == answer => Came::Right,
        _ => Came::Wrong,
    }
}

// Twists the annotation once.
fn twist_once(
    c: Case,
    net: &[u8],
    ann: &Vec<u8>,
    kind: Kind,
    round: Round,
    tally: &mut Tally,
) -> Result<(), AllocError> {
    let mut other = ann.clone()?;
    let due = twist(kind, round, c, other.as_mut_slice());
    let t = kind as usize + 8 * (round as usize);
    // a left out arc at its key twice, where the products may agree
    let (count, point) = match kind {
        Kind::LeftOut => (c.net.count.saturating_sub(1), c.key_twice()),
        _ => (c.net.count, c.any_pair(t + 8)),
    };
    other.truncate(size(c.net.n, count));
    let said = judge(net, other.as_slice(), point);
    tally.count_twist(kind, came(due, said, c.answer));
    collisions::judge_at_key(c, net, other.as_slice(), count, t + 32, said, tally);
    Ok(())
}

// Twists it in each way in which there is anything to change.
fn twist_all(
    c: Case,
    net: &[u8],
    ann: &Vec<u8>,
    round: Round,
    tally: &mut Tally,
) -> Result<(), AllocError> {
    for kind in KINDS {
        if applies(kind, c, ann.as_slice()) {
            twist_once(c, net, ann, kind, round, tally)?;
        }
    }
    Ok(())
}

// All that is done with an annotation.
fn try_all(c: Case, net: &[u8], ann: &mut Vec<u8>, tally: &mut Tally) -> Result<(), AllocError> {
    add(&mut tally.judged, PAIRS + 1);
    add(&mut tally.wrong, wrong_answers(c, net, ann.as_mut_slice()));
    if c.net.seed < TWISTED_NETWORKS {
        for round in ROUNDS {
            twist_all(c, net, ann, round, tally)?;
        }
    }
    Ok(())
}

// The node number that a route's vertex has to have: its least length, the highest where it is not reached; with none its mark.
fn wanted(answer: Option<u64>, length: Option<u64>) -> u64 {
    match answer {
        Some(_) => length.unwrap_or(HIGHEST).min(HIGHEST),
        None => u64::from(length.is_some()),
    }
}

// How many node numbers of a route are not what the least lengths ask for.
fn strays(c: Case, arcs: &[Arc], ann: &[u8]) -> usize {
    let Net { n, s, .. } = c.net;
    let lengths = routes::lengths(arcs, n, s);
    (0..usize::from(n))
        .zip(&lengths)
        .filter(|(v, length)| u64::from(node_number(ann, *v)) != wanted(c.answer, **length))
        .count()
}

// How many things are wrong in the helper's annotation before it is judged.
fn wrong_numbers(c: Case, arcs: &[Arc], output: &Output) -> usize {
    if output.file.len() != size(c.net.n, c.net.count) {
        return 1;
    }
    if c.net.question == Question::Route {
        return strays(c, arcs, output.file.as_slice());
    }
    0
}

// What is known of a network: also one of its arcs.
fn known(net: Net, arcs: &[Arc]) -> Case {
    let arc = arcs.get(below(net.count, net.seed, 0, 6));
    Case {
        net,
        arc: arc.copied().unwrap_or(Arc::from([0; 4])),
        answer: truth(net, arcs),
    }
}

pub fn run(alloc: Global, net: Net, tally: &mut Tally) -> Result<(), AllocError> {
    let all = arcs(alloc, net)?;
    let file = network_files::file(alloc, net, all.as_slice())?;
    let c = known(net, all.as_slice());
    let before = vec![in alloc; 255u8; LONGEST_ANNOTATION]?;
    let mut output = annotate(alloc, file.as_slice(), before.as_slice())?;
    let self_loops = all.iter().filter(|arc| arc.is_self_loop()).count();
    tally.networks.count(c.answer);
    add(&mut tally.self_loops, self_loops);
    add(&mut tally.wrong, wrong_numbers(c, all.as_slice(), &output));
    try_all(c, file.as_slice(), &mut output.file, tally)
}
