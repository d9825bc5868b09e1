// What a call answers: done, or a refusal (document 01, Refusal numbers, in order of checking; 40 to 45:
// document 02, request (iv)).
ghost use Rattle.std.specs.Prelude.{◌≡◌};
ghost use Rattle.numbers.specs.Answer.{refusal_number, answer_number};

// Why a call is refused.
#[derive(Clone, Copy, Debug, PartialEq, Eq)]
pub enum Refusal {
    BadSize,
    BadDepth,
    BadMode,
    OutsidePlane,
    NoNeighbour,
    BadBase,
    NoDifferences,
    BadSample,
    ShortList,
    BadColourDirection,
    BadReference,
    BadLines,
    BadColourSample,
    SumTooLarge,
    BadPlane,
    BadPlan,
    NotEachOnce,
    PairTurned,
    NotBlocks,
    BadCheck,
    OutOfTurn,
    BadUsed,
    NotZero,
    NoRoom,
}

// What a call answers: done, or why it is refused.
pub type Answer = Result<(), Refusal>;

impl Refusal {
    // The refusal's number.
    pub fn number(self) -> u32
        ensures { result ≡ refusal_number self }
    {
        match self {
            Refusal::BadSize => 1,
            Refusal::BadDepth => 2,
            Refusal::BadMode => 3,
            Refusal::OutsidePlane => 4,
            Refusal::NoNeighbour => 5,
            Refusal::BadBase => 6,
            Refusal::NoDifferences => 7,
            Refusal::BadSample => 8,
            Refusal::ShortList => 9,
            Refusal::BadColourDirection => 10,
            Refusal::BadReference => 11,
            Refusal::BadLines => 12,
            Refusal::BadColourSample => 13,
            Refusal::SumTooLarge => 14,
            Refusal::BadPlane => 20,
            Refusal::BadPlan => 21,
            Refusal::NotEachOnce => 22,
            Refusal::PairTurned => 23,
            Refusal::NotBlocks => 40,
            Refusal::BadCheck => 41,
            Refusal::OutOfTurn => 42,
            Refusal::BadUsed => 43,
            Refusal::NotZero => 44,
            Refusal::NoRoom => 45,
        }
    }
}

// The number of done.
pub const DONE: u32 = 0;

// The answer's number.
pub fn number(answer: Answer) -> u32
    ensures { result ≡ answer_number answer }
{
    match answer {
        Ok(()) => DONE,
        Err(refusal) => refusal.number(),
    }
}
