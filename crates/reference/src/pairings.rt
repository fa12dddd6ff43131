// The least pairing by the Hungarian method: sites come in one by one, each by a cheapest path that takes pumps from sites and gives
// them others, up to a pump that has no site. What a pair costs is never less than the site's price less the pump's, and no more where
// the pump has the site; the price of a pump that has no site is 0.
use super::arcs::Arc;
use super::paths::Paths;
use std::cmp::Reverse;

// What the cheapest arc from each pump to each site costs.
type Costs = [[Option<u16>; 256]; 256];

// What is known of each vertex.
#[derive(Clone, Copy)]
struct Vertex {
    // Its price as a pump, and as a site.
    pump_price: u64,
    site_price: u64,
    // The site that it has as a pump.
    site: Option<u8>,
}

type Vertices = [Vertex; 256];

// A pump of no network, which has the site that comes in at first.
const START: u8 = 255;

// Paths to pumps: of values the less they cost, the larger.
type Ways = Paths<Reverse<u64>>;

fn add_costs(arcs: &[Arc], costs: &mut Costs) {
    for arc in arcs {
        let cost = &mut costs[arc.tail()][arc.head()];
        *cost = Some(cost.map_or(arc.weight, |known| known.min(arc.weight)));
    }
}

// What a pair costs above its prices.
fn above(costs: &Costs, all: &Vertices, p: u8, q: u8) -> Option<u64> {
    let cost = costs[usize::from(p)][usize::from(q)]?;
    let raised = u64::from(cost).saturating_add(all[usize::from(p)].pump_price);
    Some(raised.saturating_sub(all[usize::from(q)].site_price))
}

// Continues from a pump to every pump, which would take its site q.
fn scan(costs: &Costs, all: &Vertices, pumps: u8, ways: &mut Ways, from: (u8, u64), q: u8) {
    for p in 0..pumps {
        if let Some(more) = above(costs, all, p, q) {
            ways.reach(from.0, p, Reverse(from.1.saturating_add(more)));
        }
    }
}

// Finds the cheapest path to a pump that has no site: that pump, what the path costs, and all paths.
fn search(costs: &Costs, all: &Vertices, pumps: u8) -> Option<(u8, u64, Ways)> {
    let mut ways = Paths::begin(START, Reverse(0u64));
    for _ in 0..256 {
        let (p, Reverse(cost)) = ways.next()?;
        let Some(q) = all[usize::from(p)].site else {
            return Some((p, cost, ways));
        };
        scan(costs, all, pumps, &mut ways, (p, cost), q);
    }
    None
}

// Raises the price of a vertex as a pump, and that of its site.
fn raise(all: &mut Vertices, p: u8, more: u64) {
    let pump = &mut all[usize::from(p)];
    pump.pump_price = pump.pump_price.saturating_add(more);
    if let Some(q) = pump.site {
        let site = &mut all[usize::from(q)];
        site.site_price = site.site_price.saturating_add(more);
    }
}

// Raises the prices of each pump that paths were continued from, and of its site, by what its path costs less than one of a cost.
fn raise_all(all: &mut Vertices, ways: &Ways, cost: u64) {
    for p in 0..=255u8 {
        if let Some(Reverse(less)) = ways.continued(p) {
            raise(all, p, cost.saturating_sub(less));
        }
    }
}

// Gives pump p the site of another.
fn give_site(all: &mut Vertices, from: u8, p: u8) {
    all[usize::from(p)].site = all[usize::from(from)].site;
}

// Each pump on the path to the last gets the site of the one before it.
fn change(all: &mut Vertices, ways: &Ways, last: u8) {
    let mut p = last;
    for _ in 0..256 {
        let Some(from) = ways.before(p) else {
            return;
        };
        give_site(all, from, p);
        p = from;
    }
}

// Takes site q in, if there is a pump for it.
fn take_in(costs: &Costs, all: &mut Vertices, pumps: u8, q: u8) -> Option<()> {
    all[usize::from(START)].site = Some(q);
    let (last, cost, ways) = search(costs, all, pumps)?;
    raise_all(all, &ways, cost);
    change(all, &ways, last);
    Some(())
}

// The least cost of a pairing of n vertices, so many of them pumps. It is the price of START, which every path has raised by its cost.
pub fn least(arcs: &[Arc], pumps: u8, n: u8) -> Option<u64> {
    let mut costs = [[None; 256]; 256];
    add_costs(arcs, &mut costs);
    let mut all = [Vertex {
        pump_price: 0,
        site_price: 0,
        site: None,
    }; 256];
    for q in pumps..n {
        take_in(&costs, &mut all, pumps, q)?;
    }
    Some(all[usize::from(START)].pump_price)
}
