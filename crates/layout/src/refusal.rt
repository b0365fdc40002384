// Why a call is refused.
ghost use Rattle.std.specs.Prelude.{◌≡◌};
ghost use Rattle.layout.specs.Answers.{refusal_number};

// "A refusal gives its number": each case has its number, which C sees.
#[derive(Clone, Copy, Debug, PartialEq, Eq)]
pub enum Refusal {
    MeshHead = 1,
    Counts = 2,
    MeshLength = 3,
    Record = 4,
    ChainElement = 5,
    Closure = 6,
    Uncovered = 7,
    PartMap = 8,
    EmptyPart = 9,
    Stencil = 10,
    Rule = 11,
    Held = 12,
    Reach = 13,
    Field = 14,
    Message = 15,
    Output = 16,
    State = 20,
    Sender = 21,
    MessageRound = 22,
    AlreadyTaken = 23,
    NotTaken = 24,
    NotWritten = 25,
    LastRound = 26,
    Receiver = 27,
    OtherRound = 28,
    PointReach = 29,
}

impl From<Refusal> for u32 {
    ghost from_gives = { λ refusal number. number ≡ refusal_number refusal };

    fn from(refusal: Refusal) -> u32 {
        refusal as u32
    }
}
