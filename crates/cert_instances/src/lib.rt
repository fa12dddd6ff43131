// What the solver is handed and what it hands back.
#![tactic(auto)]

ghost use Rattle.std.specs.Prelude.{◌≡◌};
ghost use Rattle.cert_instances.specs.Certify.{claimed};

pub mod records;
pub mod vertices;

// What a network is certified to have: a value, or none.
#[derive(Clone, Copy, Debug, PartialEq, Eq)]
pub enum Claim {
    Value,
    None,
}

// The number of a claim.
impl From<Claim> for u8 {
    ghost from_gives = { λ claim k. k ≡ claimed claim };

    fn from(claim: Claim) -> u8 {
        match claim {
            Claim::Value => 1,
            Claim::None => 2,
        }
    }
}

// The input is none that the solver answers.
#[derive(Clone, Copy, Debug, PartialEq, Eq)]
pub struct Inadmissible;
