// Every refusal that a call gives, its number, and the first of a call's rows that is given (document 01, 'Refusal numbers').
#![tactic(auto)]

ghost use Rattle.std.specs.Prelude.{◌≡◌};
ghost use Rattle.refusals.specs.Numbers.{number_of};
ghost use Rattle.refusals.specs.Rows.{row, first_given};

// One for each number, in the order of the numbers (DECISIONS F43, F44).
#[derive(Clone, Copy, Debug, PartialEq, Eq)]
pub enum Refusal {
    BadState,
    LineLength,
    VoiceLength,
    LsdLength,
    NotCarried,
    ForbiddenItem,
    AudioWhileMuted,
    Overlap,
    BadRecording,
    NoPlace,
    NotAPreset,
}

// A row of a call: what it refuses with, and whether it is given.
#[derive(Clone, Copy)]
pub struct Row {
    pub refusal: Refusal,
    pub given: bool,
}

// The number of a refusal.
impl From<Refusal> for u8 {
    ghost from_gives = { λ refusal number. number ≡ number_of refusal };

    fn from(refusal: Refusal) -> u8 {
        match refusal {
            Refusal::BadState => 1,
            Refusal::LineLength => 2,
            Refusal::VoiceLength => 3,
            Refusal::LsdLength => 4,
            Refusal::NotCarried => 5,
            Refusal::ForbiddenItem => 6,
            Refusal::AudioWhileMuted => 7,
            Refusal::Overlap => 8,
            Refusal::BadRecording => 9,
            Refusal::NoPlace => 10,
            Refusal::NotAPreset => 11,
        }
    }
}

impl Refusal {
    // The row that refuses with this, where it is given.
    pub fn row(self, given: bool) -> Row
        ensures { result ≡ row self given }
    {
        Row {
            refusal: self,
            given,
        }
    }
}

// The refusal of the first of a call's rows that is given; where none is, the call is accepted.
pub fn first_given(rows: &[Row]) -> Result<(), Refusal>
    ensures { result ≡ first_given rows.now }
{
    for row in rows {
        if row.given {
            return Err(row.refusal);
        }
    }
    Ok(())
}
