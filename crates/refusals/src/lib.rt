// Why a step, a file or a request is refused (PANEL 11), each with its number.
#![tactic(auto)]

ghost use Rattle.std.specs.Prelude.{◌≡◌};
ghost use Rattle.refusals.specs.Refusals.{number};

// The refusals, in the order of their numbers.
#[derive(Clone, Copy, Debug, PartialEq, Eq)]
pub enum Refusal {
    // opening, or the header of a network file
    UnknownQuestion,
    SizeOutOfRange,
    EndsNotAllowed,
    PointTooLarge,
    // a step of a session
    NotNow,
    TooManyArcs,
    ArcNotAllowed,
    WeightTooLarge,
    ClaimNotAllowed,
    NumberNotAllowed,
    AmountNotAllowed,
    ArcRuleBroken,
    // finishing
    ArcsMissing,
    FingerprintsDiffer,
    BalanceWrong,
    SumsDisagree,
    // the layout of a file
    WrongMark,
    WrongVersion,
    WrongLength,
    // the helper and the calendar
    BufferTooShort,
    TooManyWindows,
    WindowNotAllowed,
}

// Its number.
impl From<Refusal> for u8 {
    ghost from_gives = { λ why k. k ≡ number why };

    fn from(why: Refusal) -> u8 {
        match why {
            Refusal::UnknownQuestion => 1,
            Refusal::SizeOutOfRange => 2,
            Refusal::EndsNotAllowed => 3,
            Refusal::PointTooLarge => 4,
            Refusal::NotNow => 5,
            Refusal::TooManyArcs => 6,
            Refusal::ArcNotAllowed => 7,
            Refusal::WeightTooLarge => 8,
            Refusal::ClaimNotAllowed => 9,
            Refusal::NumberNotAllowed => 10,
            Refusal::AmountNotAllowed => 11,
            Refusal::ArcRuleBroken => 12,
            Refusal::ArcsMissing => 13,
            Refusal::FingerprintsDiffer => 14,
            Refusal::BalanceWrong => 15,
            Refusal::SumsDisagree => 16,
            Refusal::WrongMark => 17,
            Refusal::WrongVersion => 18,
            Refusal::WrongLength => 19,
            Refusal::BufferTooShort => 20,
            Refusal::TooManyWindows => 21,
            Refusal::WindowNotAllowed => 22,
        }
    }
}
