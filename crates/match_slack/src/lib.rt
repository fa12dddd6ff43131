// How much dearer every arc from an exposed left vertex is than what matched right vertices pay. The lightest arc from each left vertex is noted once, so that this is found vertex by vertex and not arc by arc.
#![tactic(auto)]

ghost use Rattle.std.specs.Prelude.{◌≡◌, ℕ, ◌<◌, ◌≤◌, length};
ghost use Rattle.packed_arcs.specs.Entries.{entry};
ghost use Rattle.arc_index.specs.ArcIndex.{no_arc};
ghost use Rattle.arc_index.specs.Columns.{record_tails, record_weights};
ghost use Rattle.match_slack.specs.Slack.{Lightest, Slack};

use arc_index::NO_ARC;
use arc_records::arc_in;

// The greatest weight of an arc.
const HEAVIEST: u16 = 32767;

// Notes for each left vertex the least weight of the arcs from it, and the greatest weight there is where it has none.
pub fn write_lightest(records: &[u32], lightest: &mut [u16])
    requires { (e : ℕ) → e < length records.now → (entry (record_tails records.now) e < length lightest.old) × (entry (record_weights records.now) e ≤ 32767) }
    ensures { Lightest (record_tails records.now) (record_weights records.now) lightest.new }
{
    lightest.fill(HEAVIEST);
    for record in records {
        let arc = arc_in(*record);
        let a = arc.tail as usize;
        lightest[a] = lightest[a].min(arc.weight as u16);
    }
}

// What is noted for a vertex where it is exposed, else the greatest weight. Worked out before it is compared, so that several vertices are compared at once.
fn exposed_weight(mate: u16, weight: u16) -> u32
    ensures { mate ≡ no_arc → result ≡ weight }
{
    if mate == NO_ARC {
        return u32::from(weight);
    }
    u32::from(HEAVIEST)
}

// The least of what is noted for exposed left vertices, at most the greatest weight.
fn floor_of(lightest: &[u16], mate: &[u16]) -> u32
    requires { length lightest.now ≤ length mate.now }
    ensures { (result ≤ 32767) × ((a : ℕ) → a < length lightest.now → entry mate.now a ≡ no_arc → result ≤ entry lightest.now a) }
{
    let mut least = u32::from(HEAVIEST);
    for (a, weight) in lightest.iter().enumerate() {
        least = least.min(exposed_weight(mate[a], *weight));
    }
    least
}

// The potential of a vertex where it is matched, else 0.
fn matched_potential(mate: u16, potential: u32) -> u32
    ensures { mate < no_arc → result ≡ potential }
{
    if mate < NO_ARC {
        return potential;
    }
    0
}

// The greatest potential of the matched vertices from h on.
fn top_of(h: usize, mate: &[u16], pi: &[u32]) -> u32
    requires { length mate.now ≡ length pi.now }
    ensures { (b : ℕ) → b < length pi.now → h ≤ b → entry mate.now b < no_arc → entry pi.now b ≤ result }
{
    let mut most: u32 = 0;
    for b in h..pi.len() {
        most = most.max(matched_potential(mate[b], pi[b]));
    }
    most
}

// How much dearer every arc from an exposed left vertex is than any matched right vertex pays, or 0.
pub fn slack_of(lightest: &[u16], mate: &[u16], pi: &[u32]) -> u32
    requires { (length lightest.now ≤ length pi.now) × (length mate.now ≡ length pi.now) }
    ensures { Slack lightest.now mate.now pi.now result }
{
    let floor = floor_of(lightest, mate);
    let top = top_of(lightest.len(), mate, pi);
    floor.saturating_sub(top)
}
