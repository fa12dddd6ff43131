// A checking session (PANEL 6): opening and the six steps, by value. A step consumes the session and gives the next one with what it says.
// Each step is thin over a step of the session's state, so that a caller who keeps the two arrays in place copies only the state.
#![tactic(auto)]

ghost use Rattle.std.specs.Prelude.{◌≡◌};
ghost use Rattle.arc_records.specs.Arcs.{arc_of};
ghost use Rattle.network.specs.Network.{load_of};
ghost use Rattle.checks.specs.Held.{handed};
ghost use Rattle.state.specs.Turns.{turn_of};
ghost use Rattle.refusals.specs.Refusals.{number};
ghost use Rattle.session.specs.Replies.{replied, finished};
ghost use Rattle.session.specs.Session.{zero_arrays, with_state, fresh, void, leaves, accept, by_turn_of};
ghost use Rattle.session.specs.Steps.{opening, read_step, end_step, claim_step, number_step, repeat_step, finish_step};

use arc_records::{Balances, MOST_VERTICES, Potentials, Record};
use checks::Opening;
use points::Point;
use refusals::Refusal;
use state::{State, idle};
use vertex_arrays::move_amount;

// What a session holds of each vertex: its node number and its balance.
#[derive(Clone, Copy)]
pub struct Arrays {
    potentials: Potentials,
    balances: Balances,
}

// The state stands last: so a step that touches nothing else is compiled without a copy of the arrays.
#[derive(Clone, Copy)]
pub struct Session {
    arrays: Arrays,
    state: State,
}

// What a step hands back: the next session, and what the step answers where it is not refused.
#[derive(Clone, Copy)]
pub struct Reply<T> {
    pub session: Session,
    pub answer: Result<T, Refusal>,
}

// 0 for each vertex in every array.
fn zero_arrays() -> Arrays
    ensures { result ≡ zero_arrays }
{
    Arrays {
        potentials: [0i32; MOST_VERTICES as usize],
        balances: [0i64; MOST_VERTICES as usize],
    }
}

// The session of a state before its arrays are touched.
fn fresh(state: State) -> Session
    ensures { result ≡ fresh state }
{
    Session {
        arrays: zero_arrays(),
        state: state,
    }
}

// A void session; an ended one is the same.
fn ended() -> Session
    ensures { result ≡ void }
{
    fresh(idle())
}

impl Session {
    // What a refusal hands back.
    fn refuse<T>(self, refusal: Refusal) -> Reply<T>
        ensures session_left { result.session ≡ leaves self (number refusal) }
        ensures answer_value { result.answer ≡ Err refusal }
    {
        let state = self.state;
        let session = if state.is_ended_by(u8::from(refusal)) {
            ended()
        } else {
            self
        };
        Reply {
            session,
            answer: Err(refusal),
        }
    }

    // What an accepted step hands back, which makes this of the state.
    fn accept(mut self, next: State) -> Reply<()>
        ensures { replied result ≡ accept (with_state self next) }
    {
        self.state = next;
        Reply {
            session: self,
            answer: Ok(()),
        }
    }

    // The reply to a step that changes nothing but the state.
    fn reply_to(self, turn: Result<State, Refusal>) -> Reply<()>
        ensures { replied result ≡ by_turn_of self (turn_of self.state turn) }
    {
        match turn {
            Ok(next) => self.accept(next),
            Err(refusal) => self.refuse(refusal),
        }
    }

    // Opening; refused, the session is void.
    pub fn open(o: Opening, point: Point) -> Reply<()>
        ensures { replied result ≡ opening (handed o) point }
    {
        match State::open(o, point) {
            Ok(state) => Reply {
                session: fresh(state),
                answer: Ok(()),
            },
            Err(refusal) => Reply {
                session: ended(),
                answer: Err(refusal),
            },
        }
    }

    // Reading a channel.
    pub fn read_channel(self, a: u32, b: u32, w: u32) -> Reply<()>
        ensures { replied result ≡ read_step self (arc_of a b w) }
    {
        let state = self.state;
        let turn = state.read_channel(Record {
            tail: a,
            head: b,
            weight: w,
        });
        self.reply_to(turn)
    }

    // Ending the reading.
    pub fn end_reading(self) -> Reply<()>
        ensures { replied result ≡ end_step self }
    {
        let state = self.state;
        self.reply_to(state.end_reading())
    }

    // The claim.
    pub fn claim(self, claim: u32) -> Reply<()>
        ensures { replied result ≡ claim_step self claim }
    {
        let state = self.state;
        self.reply_to(state.claim(claim))
    }

    // A node number.
    pub fn node_number(mut self, y: i32) -> Reply<()>
        ensures { replied result ≡ number_step self y }
    {
        let state = self.state;
        match state.node_number(y) {
            Ok(next) => {
                state.store_number(&mut self.arrays.potentials, y);
                self.accept(next)
            }
            Err(refusal) => self.refuse(refusal),
        }
    }

    // A repeated channel.
    pub fn repeat_channel(mut self, a: u32, b: u32, w: u32, x: u32) -> Reply<()>
        ensures { replied result ≡ repeat_step self (load_of a b w x) }
    {
        let state = self.state;
        let arc = Record {
            tail: a,
            head: b,
            weight: w,
        };
        match state.repeat_channel(&self.arrays.potentials, arc, x) {
            Ok(next) => {
                move_amount(&mut self.arrays.balances, arc, x);
                self.accept(next)
            }
            Err(refusal) => self.refuse(refusal),
        }
    }

    // Finishing: a value, or none.
    pub fn finish(self) -> Reply<Option<u64>>
        ensures { finished result ≡ finish_step self }
    {
        let state = self.state;
        let potentials = self.arrays.potentials;
        let balances = self.arrays.balances;
        match state.finish_check(potentials, balances) {
            Ok(()) => Reply {
                session: ended(),
                answer: Ok(state.answer(balances)),
            },
            Err(refusal) => self.refuse(refusal),
        }
    }
}
