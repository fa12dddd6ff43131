// Checks 9 to 12 (PANEL 6): the claim, a node number, an amount, and the rule on an arc.
ghost use Rattle.std.specs.Prelude.{◌≡◌, [], ◌∷◌, eqb, leb, pos};
ghost use Rattle.prelude.specs.Checks.{◌unless◌, first_broken};
ghost use Rattle.refusals.specs.Refusals.{why};
ghost use Rattle.prelude.specs.Choice.{implies};
ghost use Rattle.prelude.specs.Integers.{eq_z};
ghost use Rattle.arc_records.specs.Arcs.{arc_held};
ghost use Rattle.network.specs.Network.{load_held};
ghost use Rattle.network.specs.Certificate.{stays_inside, separates, pump_not_negative};
ghost use Rattle.network.specs.Tests.{claim_number, claim_of, claim_ok, node_ok};
ghost use Rattle.checks.specs.Held.{asked, rules_held};
ghost use Rattle.rules.specs.Held.{ends_held};

use arc_records::Record;
use checks::rows::{Row, row_of};
use checks::{HeldSetting, pumps};
use refusals::Refusal;
use words::signed::at_most_sum;

// What the ends of an arc have: node numbers and marks.
#[derive(Clone, Copy, Debug, PartialEq, Eq)]
pub struct Ends {
    pub tail_number: i32,
    pub head_number: i32,
    pub tail_marked: bool,
    pub head_marked: bool,
}

// 9: may the claim be made?
fn is_admitted(row: Row) -> bool
    ensures { result ≡ (rules_held row).admitted }
{
    row != Row::Nothing
}

// 9: is the claim 1 or 2, and is there a certificate for it?
pub fn claim_ok(st: HeldSetting, claim: u32) -> bool
    ensures { result ≡ claim_ok (asked st) claim }
{
    1 <= claim && claim <= 2 && is_admitted(row_of(st.question, claim))
}

// Is the node number of the source 0?
fn source_zero(st: HeldSetting, v: u32, z: i32) -> bool
    ensures { result ≡ implies (eqb v st.s) (eq_z z (pos 0)) }
{
    v != u32::from(st.s) || z == 0
}

// Is the mark z of the vertex v 1 at the source and 0 at the sink?
fn separates(st: HeldSetting, v: u32, z: i32) -> bool
    ensures { result ≡ separates (asked st) v z }
{
    (v != u32::from(st.s) || z == 1) && (v != u32::from(st.t) || z == 0)
}

// Is the node number of a pump not negative?
fn pump_not_negative(st: HeldSetting, v: u32, z: i32) -> bool
    ensures { result ≡ pump_not_negative (asked st) v z }
{
    u32::from(pumps(st)) <= v || 0 <= z
}

// The rule on the node number of a vertex, besides the range.
fn on_node(row: Row, st: HeldSetting, v: u32, z: i32) -> bool
    ensures { result ≡ (rules_held row).on_node (asked st) v z }
{
    match row {
        Row::PathValue => source_zero(st, v, z),
        Row::FlowValue | Row::PathNone => separates(st, v, z),
        Row::AssignmentValue => pump_not_negative(st, v, z),
        Row::AssignmentNone | Row::AcyclicityValue | Row::AcyclicityNone => true,
        Row::Nothing => false,
    }
}

// The number of a claim: 1 a value, else 2.
fn claim_number(claim: u32) -> u32
    ensures { result ≡ claim_number (claim_of claim) }
{
    if claim == 1 { 1 } else { 2 }
}

// 10: is the node number z of the vertex v in the range of the table, and does it meet the rule for it?
pub fn node_ok(st: HeldSetting, claim: u32, v: u32, z: i32) -> bool
    ensures { result ≡ node_ok (asked st) (claim_of claim) v z }
{
    ranges::in_table(st.question, claim_number(claim), z)
        && on_node(row_of(st.question, claim), st, v, z)
}

// The most amount on an arc.
fn most(row: Row, arc: Record) -> u32
    ensures { result ≡ (rules_held row).most (arc_held arc) }
{
    match row {
        Row::PathValue | Row::AssignmentValue | Row::AcyclicityNone => 1,
        Row::FlowValue => arc.weight,
        Row::PathNone | Row::AssignmentNone | Row::AcyclicityValue | Row::Nothing => 0,
    }
}

// 11: is the amount x allowed on the arc?
fn amount_ok(row: Row, arc: Record, x: u32) -> bool
    ensures { result ≡ leb x ((rules_held row).most (arc_held arc)) }
{
    x <= most(row, arc)
}

// Does the arc not lead out of the marked side?
fn stays_inside(ends: Ends, arc: Record, x: u32) -> bool
    ensures { result ≡ stays_inside (ends_held ends) (load_held arc x) }
{
    !ends.tail_marked || ends.head_marked
}

// 12: does the arc with its amount meet the rule on potentials, on marks or on ranks?
fn rule_ok(row: Row, ends: Ends, arc: Record, x: u32) -> bool
    ensures { result ≡ (rules_held row).on_arc (ends_held ends) (load_held arc x) }
{
    match row {
        Row::PathValue | Row::AssignmentValue => {
            at_most_sum(ends.head_number, ends.tail_number, arc.weight)
        }
        Row::FlowValue | Row::AcyclicityNone => true,
        Row::PathNone | Row::AssignmentNone => stays_inside(ends, arc, x),
        Row::AcyclicityValue => ends.tail_number < ends.head_number,
        Row::Nothing => false,
    }
}

// The first check that refuses the amount and the rule of an arc to be repeated: 11 or 12.
pub fn load_check(row: Row, ends: Ends, arc: Record, x: u32) -> Result<(), Refusal>
    ensures { why result ≡ first_broken (11 unless leb x ((rules_held row).most (arc_held arc)) ∷ 12 unless (rules_held row).on_arc (ends_held ends) (load_held arc x) ∷ []) }
{
    if !amount_ok(row, arc, x) {
        return Err(Refusal::AmountNotAllowed);
    }
    if !rule_ok(row, ends, arc, x) {
        return Err(Refusal::ArcRuleBroken);
    }
    Ok(())
}
