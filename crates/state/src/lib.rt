// What a session knows but for the node numbers and the balances of the vertices, and its steps on that alone: a caller who keeps the two arrays in place copies only this.
#![tactic(auto)]

ghost use Rattle.std.specs.Prelude.{◌≡◌, not, ◌&&◌, ◌≤◌, ◌<◌, eqb, set};
ghost use Rattle.prelude.specs.Checks.{first_broken};
ghost use Rattle.refusals.specs.Refusals.{why};
ghost use Rattle.prelude.specs.Choice.{pick};
ghost use Rattle.prelude.specs.Lists.{at};
ghost use Rattle.arc_records.specs.Arcs.{arc_held};
ghost use Rattle.network.specs.Network.{load_held, crosses};
ghost use Rattle.network.specs.Tests.{answer_of};
ghost use Rattle.points.specs.Points.{empty_stream};
ghost use Rattle.checks.specs.Held.{handed, rules_held};
ghost use Rattle.totals.specs.Held.{sums_held};
ghost use Rattle.state.specs.Results.{answer_held};
ghost use Rattle.state.specs.State.{is_claimed, setting_held, claim_held, marks_held, begun, idle, with_repeat, finish_checks};
ghost use Rattle.state.specs.Turns.{turn_of, open_turn, read_turn, end_turn, claim_turn, number_turn, repeat_turn};

use additions::{cost_after, with_arc, with_number};
use arc_records::{Balances, Potentials, Record};
use checks::rows::{Row, question_of, row_of, unit_cost, units_most};
use checks::{HeldSetting, Opening};
use points::{Point, Stream, lists_check};
use refusals::Refusal;
use rules::annotation::{claim_ok, load_check};
use session_groups::step_checks::{
    is_ended_by, number_check, open_check, read_check, repeat_check,
};
use session_groups::{
    CLAIMED, Numbering, OVER, READ, READING, Reading, Repeating, claimed, cut_after, leads_out,
    no_list, unrepeated,
};
use totals::totals_check;
use vertex_arrays::ends_of;
use words::entries::store;
use words::signed::to_unsigned;

mod additions;

// What a session knows but for the two arrays: the phase, which fills a whole word as every group does, and the groups.
#[derive(Clone, Copy)]
pub struct State {
    phase: u64,
    reading: Reading,
    numbering: Numbering,
    repeating: Repeating,
}

// The state before the claim that has read nothing.
fn begun(phase: u64, setting: HeldSetting, point: Point) -> State
    ensures { result ≡ begun phase setting point empty_stream }
{
    let reading = Reading {
        setting: setting,
        point: point,
        list: no_list(),
    };
    State {
        phase: phase,
        reading: reading,
        numbering: claimed(0),
        repeating: unrepeated(),
    }
}

// The state of a void session.
pub fn idle() -> State
    ensures { result ≡ idle }
{
    let setting = HeldSetting {
        question: 0,
        n: 0,
        s: 0,
        t: 0,
    };
    begun(OVER, setting, points::no_point())
}

// The answer of an annotation that passes: a value, or none.
fn answer_of(row: Row, balances: Balances, cost: i64, cut: i64) -> Option<u64>
    ensures { answer_held result ≡ (rules_held row).answer (sums_held balances cost cut) }
{
    match row {
        Row::PathValue => Some(to_unsigned(cost)),
        Row::FlowValue => Some(to_unsigned(cut)),
        Row::AssignmentValue => Some(to_unsigned(cost)),
        Row::PathNone => None,
        Row::AssignmentNone => None,
        Row::AcyclicityValue => Some(0),
        Row::AcyclicityNone => None,
        Row::Nothing => None,
    }
}

impl State {
    // Opening.
    pub fn open(o: Opening, point: Point) -> Result<State, Refusal>
        ensures { turn_of idle result ≡ open_turn (handed o) point }
    {
        open_check(o, point)?;
        let setting = HeldSetting {
            question: o.question as u8,
            n: o.n as u8,
            s: o.s as u8,
            t: o.t as u8,
        };
        Ok(begun(READING, setting, point))
    }

    // Reading a channel.
    pub fn read_channel(mut self, arc: Record) -> Result<State, Refusal>
        ensures { turn_of self result ≡ read_turn self (arc_held arc) }
    {
        let mut reading = self.reading;
        let list = reading.list;
        read_check(self.phase, reading.setting, list.count, arc)?;
        let next = with_arc(reading.point, list, arc_records::MOST_ARCS, arc);
        reading.list = next;
        self.reading = reading;
        Ok(self)
    }

    // Ending the reading.
    pub fn end_reading(mut self) -> Result<State, Refusal>
        ensures { turn_of self result ≡ end_turn self }
    {
        let phase = self.phase;
        if phase != READING {
            return Err(Refusal::NotNow);
        }
        self.phase = READ;
        Ok(self)
    }

    // The claim.
    pub fn claim(mut self, claim: u32) -> Result<State, Refusal>
        ensures { turn_of self result ≡ claim_turn self claim }
    {
        let phase = self.phase;
        let reading = self.reading;
        if phase != READ {
            return Err(Refusal::NotNow);
        }
        if !claim_ok(reading.setting, claim) {
            return Err(Refusal::ClaimNotAllowed);
        }
        self.phase = CLAIMED;
        self.numbering = claimed(claim);
        Ok(self)
    }

    // A node number, which is then to be stored.
    pub fn node_number(mut self, y: i32) -> Result<State, Refusal>
        ensures { turn_of self result ≡ number_turn self y }
    {
        let reading = self.reading;
        let numbering = self.numbering;
        number_check(
            self.phase,
            reading.setting,
            numbering.claim,
            numbering.given,
            y,
        )?;
        self.numbering = with_number(numbering, reading.setting.n, y);
        Ok(self)
    }

    // Stores the node number y as that of the next vertex.
    pub fn store_number(self, potentials: &mut Potentials, y: i32)
        ensures { potentials.new ≡ set potentials.old self.numbering.given y }
    {
        let numbering = self.numbering;
        store(potentials, numbering.given as usize, y);
    }

    // Does the refusal of this number end the session? Once a claim stands, every one but 5 does.
    pub fn is_ended_by(self, k: u8) -> bool
        ensures { result ≡ (is_claimed self && not (eqb k 5)) }
    {
        is_ended_by(self.phase, k)
    }

    // The state, or that of a void session where the session is over.
    pub fn left(self, over: bool) -> State
        ensures { result ≡ pick over idle self }
    {
        if over {
            return idle();
        }
        self
    }

    // The state with one arc more repeated, which leads out of the marked side or does not.
    fn with_repeat(mut self, crossing: bool, arc: Record, x: u32) -> State
        requires count_lt_count { self.repeating.list.count < self.reading.list.count }
        requires weight_bound { arc.weight ≤ 32767 }
        requires x_bound { x ≤ 32767 }
        requires crossing_value { crossing ≡ crosses (marks_held self) (arc_held arc) }
        ensures { result ≡ with_repeat self (load_held arc x) }
    {
        let reading = self.reading;
        let repeating = self.repeating;
        let count = repeating.list.count;
        let print = repeating.list.print;
        let question = question_of(reading.setting.question as u32);
        // not by `with_arc`: compiled, the count and the product of what it hands back share a word, and judging takes longer
        let next = Repeating {
            list: Stream {
                count: count + 1,
                print: points::with_arc(reading.point, print, arc),
            },
            cost: cost_after(repeating.cost, unit_cost(question, arc), x),
            cut: cut_after(repeating.cut, units_most(question, arc), crossing),
        };
        self.repeating = next;
        self
    }

    // A repeated channel, whose amount is then to be moved between the balances.
    pub fn repeat_channel(
        self,
        potentials: &Potentials,
        arc: Record,
        x: u32,
    ) -> Result<State, Refusal>
        ensures { turn_of self result ≡ repeat_turn self (at potentials.now) (load_held arc x) }
    {
        let reading = self.reading;
        let numbering = self.numbering;
        let repeating = self.repeating;
        repeat_check(
            self.phase,
            reading.setting,
            numbering.given,
            reading.list.count,
            repeating.list.count,
            arc,
        )?;
        let marks = numbering.marks;
        let ends = ends_of(potentials, marks, arc);
        load_check(
            row_of(reading.setting.question, numbering.claim),
            ends,
            arc,
            x,
        )?;
        let crossing = leads_out(ends.tail_marked, ends.head_marked);
        Ok(self.with_repeat(crossing, arc, x))
    }

    // The first check that refuses finishing: 5, 13, 14, 15 or 16.
    pub fn finish_check(self, potentials: Potentials, balances: Balances) -> Result<(), Refusal>
        ensures { why result ≡ first_broken (finish_checks self (at potentials) (sums_held balances self.repeating.cost self.repeating.cut)) }
    {
        let reading = self.reading;
        let numbering = self.numbering;
        let repeating = self.repeating;
        let st = reading.setting;
        if self.phase != CLAIMED {
            return Err(Refusal::NotNow);
        }
        if numbering.given != st.n as u32 {
            return Err(Refusal::NotNow);
        }
        lists_check(reading.list, repeating.list)?;
        let row = row_of(st.question, numbering.claim);
        let marks = numbering.marks;
        totals_check(
            row,
            st,
            potentials,
            marks,
            balances,
            repeating.cost,
            repeating.cut,
        )
    }

    // The answer where finishing is not refused.
    pub fn answer(self, balances: Balances) -> Option<u64>
        ensures { answer_held result ≡ answer_of (setting_held self) (claim_held self) (sums_held balances self.repeating.cost self.repeating.cut) }
    {
        let reading = self.reading;
        let numbering = self.numbering;
        let repeating = self.repeating;
        let row = row_of(reading.setting.question, numbering.claim);
        answer_of(row, balances, repeating.cost, repeating.cut)
    }
}
