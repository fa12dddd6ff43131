// The rules of finishing (PANEL 6) as functions: check 15, the balances, and check 16, the two sums, the sites and pumps without a mark, or whether an amount is set.
#![tactic(auto)]

ghost use Rattle.std.specs.Prelude.{◌≡◌, not, [], ◌∷◌, ◌+◌, ◌-◌, pos};
ghost use Rattle.std.specs.Int.Signed.{lt_z};
ghost use Rattle.prelude.specs.Checks.{◌unless◌, first_broken};
ghost use Rattle.refusals.specs.Refusals.{why};
ghost use Rattle.prelude.specs.Integers.{eq_z};
ghost use Rattle.prelude.specs.Lists.{at};
ghost use Rattle.prelude.specs.Sums.{sum_to_ℤ, count, all_to};
ghost use Rattle.words.specs.Marks.{is_marked};
ghost use Rattle.network.specs.Certificate.{flow_rules, path_balance, assignment_balance, potential_gap, more_sites_unmarked};
ghost use Rattle.checks.specs.Held.{asked, rules_held};
ghost use Rattle.totals.specs.Held.{sums_held};

use arc_records::{Balances, MOST_VERTICES, Potentials};
use checks::rows::Row;
use checks::{HeldSetting, pumps};
use refusals::Refusal;
use words::marks::count_marked;
use words::signed::{add, subtract};

// The entry of a vertex, 0 past the end.
fn potential_at(potentials: Potentials, v: u8) -> i32
    ensures { result ≡ at potentials v }
{
    potentials.get(usize::from(v)).copied().unwrap_or(0)
}

fn balance_at(balances: Balances, v: u8) -> i64
    ensures { result ≡ at balances v }
{
    balances.get(usize::from(v)).copied().unwrap_or(0)
}

// Is b the balance of the vertex v of a path?
fn path_balance(st: HeldSetting, v: u8, b: i64) -> bool
    ensures { result ≡ eq_z b (path_balance (asked st) v) }
{
    let due = if v == st.s {
        1
    } else if v == st.t {
        -1
    } else {
        0
    };
    b == due
}

// Is b a balance of the vertex v of a flow?
fn flow_balance(st: HeldSetting, v: u8, b: i64) -> bool
    ensures { result ≡ flow_rules.on_balance (asked st) v b }
{
    v == st.s || v == st.t || b == 0
}

// Is b a balance of the vertex v of an assignment?
fn assignment_balance(st: HeldSetting, v: u8, b: i64) -> bool
    ensures { result ≡ assignment_balance (asked st) v b }
{
    if v < pumps(st) {
        0 <= b && b <= 1
    } else {
        b == -1
    }
}

// Is b the balance of a vertex of a circulation?
fn zero_balance(b: i64) -> bool
    ensures { result ≡ eq_z b (pos 0) }
{
    b == 0
}

// Is b a balance that the vertex v may have?
fn balance_ok(row: Row, st: HeldSetting, v: u8, b: i64) -> bool
    ensures { result ≡ (rules_held row).on_balance (asked st) v b }
{
    match row {
        Row::PathValue => path_balance(st, v, b),
        Row::FlowValue => flow_balance(st, v, b),
        Row::AssignmentValue => assignment_balance(st, v, b),
        Row::PathNone | Row::AssignmentNone | Row::AcyclicityValue => true,
        Row::AcyclicityNone => zero_balance(b),
        Row::Nothing => false,
    }
}

// 15: does each vertex have a balance that it may have?
fn balances_ok(row: Row, st: HeldSetting, balances: Balances) -> bool
    ensures { result ≡ all_to st.n (λ v. (rules_held row).on_balance (asked st) v (at balances v)) }
{
    for v in 0..st.n {
        let b = balances[usize::from(v)];
        if !balance_ok(row, st, v, b) {
            return false;
        }
    }
    true
}

// The sum of the node numbers of the vertices from low to high - 1.
fn sum_between(potentials: Potentials, low: u8, high: u8) -> i64
    ensures { result ≡ sum_to_ℤ (high - low) (λ i. at potentials (low + i)) }
{
    let mut sum: i64 = 0;
    for v in low..high {
        let y = potentials[usize::from(v)];
        sum = add(sum, i64::from(y));
    }
    sum
}

// The sum of the node numbers of sites, less that of pumps.
fn potential_gap(st: HeldSetting, potentials: Potentials) -> i64
    ensures { result ≡ potential_gap (asked st) (at potentials) }
{
    let first_site = pumps(st);
    let of_pumps = sum_between(potentials, 0, first_site);
    let of_sites = sum_between(potentials, first_site, st.n);
    subtract(of_sites, of_pumps)
}

// How many of the vertices from low to high - 1 have no mark: all of them, less the ones under their mask.
fn count_unmarked(marks: [u64; 4], low: u8, high: u8) -> u32
    ensures { result ≡ count (λ i. not (is_marked marks (low + i))) (high - low) }
{
    let first = u32::from(low);
    let end = u32::from(high);
    let marked = count_marked(marks, first, end);
    end.saturating_sub(first) - marked
}

// Have more sites than pumps no mark?
fn more_sites_unmarked(st: HeldSetting, marks: [u64; 4]) -> bool
    ensures { result ≡ more_sites_unmarked (asked st) (is_marked marks) }
{
    let first_site = pumps(st);
    count_unmarked(marks, 0, first_site) < count_unmarked(marks, first_site, st.n)
}

// Is the cost the node number of the sink?
fn cost_is_potential(st: HeldSetting, potentials: Potentials, cost: i64) -> bool
    ensures { result ≡ eq_z cost (at potentials st.t) }
{
    cost == i64::from(potential_at(potentials, st.t))
}

// Is the balance of the source the capacity of the cut?
fn flow_is_cut(st: HeldSetting, balances: Balances, cut: i64) -> bool
    ensures { result ≡ eq_z (at balances st.s) cut }
{
    balance_at(balances, st.s) == cut
}

// Is the cost the sum over sites less that over pumps?
fn cost_is_gap(st: HeldSetting, potentials: Potentials, cost: i64) -> bool
    ensures { result ≡ eq_z cost (potential_gap (asked st) (at potentials)) }
{
    cost == potential_gap(st, potentials)
}

// Is an amount set? Every unit counts 1 where this is asked.
fn some_amount(cost: i64) -> bool
    ensures { result ≡ lt_z (pos 0) cost }
{
    0 < cost
}

// 16: do the two sums agree? For none: have more sites than pumps no mark, or is an amount set?
fn sums_ok(
    row: Row,
    st: HeldSetting,
    potentials: Potentials,
    marks: [u64; 4],
    balances: Balances,
    cost: i64,
    cut: i64,
) -> bool
    ensures { result ≡ (rules_held row).on_sums (asked st) (at potentials) (is_marked marks) (sums_held balances cost cut) }
{
    match row {
        Row::PathValue => cost_is_potential(st, potentials, cost),
        Row::FlowValue => flow_is_cut(st, balances, cut),
        Row::AssignmentValue => cost_is_gap(st, potentials, cost),
        Row::PathNone | Row::AcyclicityValue => true,
        Row::AssignmentNone => more_sites_unmarked(st, marks),
        Row::AcyclicityNone => some_amount(cost),
        Row::Nothing => false,
    }
}

// The first check that refuses the balances and the sums: 15 or 16.
pub fn totals_check(
    row: Row,
    st: HeldSetting,
    potentials: Potentials,
    marks: [u64; 4],
    balances: Balances,
    cost: i64,
    cut: i64,
) -> Result<(), Refusal>
    ensures { why result ≡ first_broken (15 unless all_to st.n (λ v. (rules_held row).on_balance (asked st) v (at balances v)) ∷ 16 unless (rules_held row).on_sums (asked st) (at potentials) (is_marked marks) (sums_held balances cost cut) ∷ []) }
{
    if !balances_ok(row, st, balances) {
        return Err(Refusal::BalanceWrong);
    }
    if !sums_ok(row, st, potentials, marks, balances, cost, cut) {
        return Err(Refusal::SumsDisagree);
    }
    Ok(())
}
