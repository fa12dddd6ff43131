// The checks of a step in their order (PANEL 6), and which refusals end a session.
ghost use Rattle.std.specs.Prelude.{◌≡◌, not, ◌&&◌, [], ◌∷◌, ◌++◌, eqb, ltb};
ghost use Rattle.prelude.specs.Checks.{◌unless◌, first_broken};
ghost use Rattle.refusals.specs.Refusals.{why};
ghost use Rattle.arc_records.specs.Arcs.{arc_held};
ghost use Rattle.network.specs.Tests.{opening_checks, arc_checks, reading_checks, claim_of, numbering_checks};
ghost use Rattle.points.specs.Points.{point_ok};
ghost use Rattle.checks.specs.Held.{handed, asked};
ghost use Rattle.session_groups.specs.Groups.{phase_reading, phase_claimed};

use super::{CLAIMED, READING};
use arc_records::Record;
use checks::{HeldSetting, Opening, opening_check};
use points::Point;
use reading::{arc_check, reading_check};
use refusals::Refusal;
use rules::annotation::node_ok;

// Opening: 1 to 4.
pub fn open_check(o: Opening, point: Point) -> Result<(), Refusal>
    ensures { why result ≡ first_broken (opening_checks (handed o) ++ 4 unless point_ok point ∷ []) }
{
    opening_check(o)?;
    if !points::is_point(point) {
        return Err(Refusal::PointTooLarge);
    }
    Ok(())
}

// An arc to be read: 5 to 8.
pub fn read_check(phase: u64, st: HeldSetting, count: u32, arc: Record) -> Result<(), Refusal>
    ensures { why result ≡ first_broken (5 unless eqb phase phase_reading ∷ reading_checks (asked st) count (arc_held arc)) }
{
    if phase != READING {
        return Err(Refusal::NotNow);
    }
    reading_check(st, count, arc)
}

// A node number: 5 or 10.
pub fn number_check(
    phase: u64,
    st: HeldSetting,
    claim: u32,
    given: u32,
    y: i32,
) -> Result<(), Refusal>
    ensures { why result ≡ first_broken (5 unless eqb phase phase_claimed ∷ numbering_checks (asked st) (claim_of claim) given y) }
{
    if phase != CLAIMED || u32::from(st.n) <= given {
        return Err(Refusal::NotNow);
    }
    if !node_ok(st, claim, given, y) {
        return Err(Refusal::NumberNotAllowed);
    }
    Ok(())
}

// An arc to be repeated, whatever its amount: 5 to 8. So many node numbers are given, and so many arcs read and repeated.
pub fn repeat_check(
    phase: u64,
    st: HeldSetting,
    given: u32,
    read: u32,
    repeated: u32,
    arc: Record,
) -> Result<(), Refusal>
    ensures { why result ≡ first_broken (5 unless eqb phase phase_claimed ∷ 5 unless eqb given st.n ∷ 6 unless ltb repeated read ∷ arc_checks (asked st) (arc_held arc)) }
{
    if phase != CLAIMED || given != u32::from(st.n) {
        return Err(Refusal::NotNow);
    }
    if read <= repeated {
        return Err(Refusal::TooManyArcs);
    }
    arc_check(st, arc)
}

// Does the refusal of this number end a session of this phase? Once a claim stands, every one but 5 does.
pub fn is_ended_by(phase: u64, k: u8) -> bool
    ensures { result ≡ (eqb phase phase_claimed && not (eqb k 5)) }
{
    phase == CLAIMED && k != u8::from(Refusal::NotNow)
}
