#![tactic(auto)]
// What the writer answers.
ghost use Rattle.std.specs.Prelude.{◌≡◌};
ghost use Rattle.frames.specs.Writer.{refusal_number, refusal_at};

// Why the writer refuses ("The write list").
#[derive(Clone, Copy)]
pub enum Refusal {
    ListEnds,
    BadFrame,
    EmptyName,
    NameUsed,
    NotText,
    TooDeep,
    NoneOpen,
    Complete,
    ListTooLong,
    FewWorkNumbers,
    EncodingTooLong,
}

// The number of a refusal ("The write list").
pub fn refusal_number(refusal: Refusal) -> u32
    ensures { result ≡ refusal_number refusal }
{
    match refusal {
        Refusal::ListEnds => 1,
        Refusal::BadFrame => 2,
        Refusal::EmptyName => 3,
        Refusal::NameUsed => 4,
        Refusal::NotText => 5,
        Refusal::TooDeep => 6,
        Refusal::NoneOpen => 7,
        Refusal::Complete => 8,
        Refusal::ListTooLong => 9,
        Refusal::FewWorkNumbers => 10,
        Refusal::EncodingTooLong => 11,
    }
}

// What the writer answers where it refuses: why, and the place in the list ("The write list").
#[derive(Clone, Copy)]
pub struct Refused {
    pub refusal: Refusal,
    pub place: usize,
}

impl Refusal {
    // This refusal, at a place.
    pub fn at(self, place: usize) -> Refused
        ensures { result ≡ refusal_at self place }
    {
        Refused {
            refusal: self,
            place,
        }
    }
}
