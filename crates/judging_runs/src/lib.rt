// The steps that a file holds, run in file order until one is refused. The node numbers and the balances stay in place.
#![tactic(auto)]

ghost use Rattle.std.specs.Prelude.{◌≡◌, map};
ghost use Rattle.format.specs.Files.{arcs_in, numbers_in, loads_in};
ghost use Rattle.state.specs.Results.{verdict};
ghost use Rattle.state.specs.Turns.{turn_of};
ghost use Rattle.session.specs.Session.{arrays_of, with_potentials, zero_arrays, joined, fresh};
ghost use Rattle.runs.specs.Run.{read, number, repeat, run};
ghost use Rattle.runs.specs.Exchange.{outcome};
ghost use Rattle.judging_runs.specs.RunsTo.{RunsTo};
ghost use Rattle.judging_runs.specs.FileSteps.{steps_in};

use arc_records::{Balances, MOST_VERTICES, Potentials};
use format::{annotation_file, network_file};
use refusals::Refusal;
use state::State;
use vertex_arrays::move_amount;

// Reads the arcs of a network file.
pub fn read_all(x: State, file: &[u8]) -> Result<State, Refusal>
    ensures { RunsTo (fresh x) (map read (arcs_in file.now)) (turn_of x result).why (fresh (turn_of x result).state) }
{
    let m = network_file::count(file) as usize;
    let mut y = x;
    for e in 0..m {
        let arc = network_file::arc(file, e);
        y = y.read_channel(arc)?;
    }
    Ok(y)
}

// The n node numbers of an annotation file.
fn number_all(x: State, potentials: &mut Potentials, file: &[u8], n: u8) -> Result<State, Refusal>
    ensures { RunsTo (joined (with_potentials zero_arrays potentials.old) x) (map number (numbers_in n file.now)) (turn_of x result).why (joined (with_potentials zero_arrays potentials.new) (turn_of x result).state) }
{
    let mut y = x;
    for v in 0..n as usize {
        let z = annotation_file::number(file, v);
        let next = y.node_number(z)?;
        y.store_number(potentials, z);
        y = next;
    }
    Ok(y)
}

// The repeated arcs of an annotation file with n node numbers.
fn repeat_all(
    x: State,
    potentials: &Potentials,
    balances: &mut Balances,
    file: &[u8],
    n: u8,
) -> Result<State, Refusal>
    ensures { RunsTo (joined (arrays_of potentials.now balances.old) x) (map repeat (loads_in n file.now)) (turn_of x result).why (joined (arrays_of potentials.now balances.new) (turn_of x result).state) }
{
    let m = annotation_file::count(file) as usize;
    let mut y = x;
    for e in 0..m {
        let l = annotation_file::load(file, n, e);
        y = y.repeat_channel(potentials, l.arc, l.amount)?;
        move_amount(balances, l.arc, l.amount);
    }
    Ok(y)
}

// The steps of an annotation file with n node numbers, from the end of reading to finishing: a value, or none.
pub fn annotation_steps(x: State, file: &[u8], n: u8) -> Result<Option<u64>, Refusal>
    ensures { verdict result ≡ outcome (run (fresh x) (steps_in n file.now)) }
{
    let mut potentials = [0i32; MOST_VERTICES as usize];
    let mut balances = [0i64; MOST_VERTICES as usize];
    let ended = x.end_reading()?;
    let claimed = ended.claim(annotation_file::claim(file) as u32)?;
    let numbered = number_all(claimed, &mut potentials, file, n)?;
    let last = repeat_all(numbered, &potentials, &mut balances, file, n)?;
    last.finish_check(potentials, balances)?;
    Ok(last.answer(balances))
}
