// The question of a number, the row of rules for a question and a claim (PANEL 5), and what the weight of an arc means (PANEL 3).
ghost use Rattle.std.specs.Prelude.{◌≡◌};
ghost use Rattle.arc_records.specs.Arcs.{arc_held};
ghost use Rattle.network.specs.Question.{question_of, unit_cost, units_most};
ghost use Rattle.network.specs.Certificate.{rules_for};
ghost use Rattle.network.specs.Tests.{claim_of};
ghost use Rattle.checks.specs.Held.{question_held, rules_held};

use arc_records::Record;

// The four questions, and no question: no `Option`, since the definition has that case, and every match would wrap each arm.
#[derive(Clone, Copy, Debug, PartialEq, Eq)]
pub enum Question {
    Path,
    Flow,
    Assignment,
    Acyclicity,
    Unasked,
}

// The seven certificates, and no certificate: no `Option`, since the definition gives rules for that case, too, and every match would wrap each arm.
#[derive(Clone, Copy, Debug, PartialEq, Eq)]
pub enum Row {
    PathValue,
    FlowValue,
    AssignmentValue,
    PathNone,
    AssignmentNone,
    AcyclicityValue,
    AcyclicityNone,
    Nothing,
}

// The question of a number.
pub fn question_of(number: u32) -> Question
    ensures { question_held result ≡ question_of number }
{
    match number {
        1 => Question::Path,
        2 => Question::Flow,
        3 => Question::Assignment,
        4 => Question::Acyclicity,
        _ => Question::Unasked,
    }
}

// The row of rules for a question and a claim.
pub fn row_of(question: u8, claim: u32) -> Row
    ensures { rules_held result ≡ rules_for (question_of question) (claim_of claim) }
{
    match (question_of(u32::from(question)), claim == 1) {
        (Question::Path, true) => Row::PathValue,
        (Question::Path, false) => Row::PathNone,
        (Question::Flow, true) => Row::FlowValue,
        (Question::Assignment, true) => Row::AssignmentValue,
        (Question::Assignment, false) => Row::AssignmentNone,
        (Question::Acyclicity, true) => Row::AcyclicityValue,
        (Question::Acyclicity, false) => Row::AcyclicityNone,
        (Question::Flow, false) | (Question::Unasked, _) => Row::Nothing,
    }
}

// What a unit counts where loops are asked for, whatever the weight of its arc.
const EACH_UNIT: u32 = 1;

// What a unit on the arc costs.
pub fn unit_cost(question: Question, arc: Record) -> u32
    ensures { result ≡ unit_cost (question_held question) (arc_held arc) }
{
    match question {
        Question::Path | Question::Assignment => arc.weight,
        Question::Acyclicity => EACH_UNIT,
        Question::Flow | Question::Unasked => 0,
    }
}

// How many units the arc may carry.
pub fn units_most(question: Question, arc: Record) -> u32
    ensures { result ≡ units_most (question_held question) (arc_held arc) }
{
    match question {
        Question::Path | Question::Assignment | Question::Acyclicity => 1,
        Question::Flow => arc.weight,
        Question::Unasked => 0,
    }
}
