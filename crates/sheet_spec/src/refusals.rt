// Why a call is refused (document 01, "Refused calls", and the papers of document 02). Each refusal has the number that specs/Refusals.antt
// gives to its cause.
ghost use Rattle.std.specs.Prelude.{◌≡◌};
ghost use Rattle.sheet_spec.specs.Refusals.{refusal_number};

#[derive(Clone, Copy, Debug, PartialEq, Eq)]
pub enum Refusal {
    // under 20 bytes, or the mark is not SH
    Head,
    // N, a count or the band variable
    Counts,
    // Δ, α or ρ
    Times,
    // the head's commands
    Commands,
    // the file's length
    Length,
    // a cap
    Cap,
    // a later record's mark
    Mark,
    // a band's edge
    Edge,
    // a band's safety range
    Safety,
    // a number of a row
    Row,
    // a side of a no-go box or of the recovery box
    Side,
    // a question's length or mark
    Question,
    // a question's allowance
    Allowance,
    // a command outside the head's
    Command,
    // a side of a measured or a start box
    Start,
    // the ticks or the width of a reach
    Reach,
    // too little room in the buffer
    Room,
    // a variable without a reading
    Missing,
    // a number of a reading
    Reading,
    // a no-go box that is not greater than the one before
    Order,
    // the recovery box shares a state with a no-go box
    Overlap,
}

impl From<Refusal> for u8 {
    ghost from_gives = { λ r n. n ≡ refusal_number r };

    fn from(refusal: Refusal) -> u8 {
        match refusal {
            Refusal::Head => 1,
            Refusal::Counts => 2,
            Refusal::Times => 3,
            Refusal::Commands => 4,
            Refusal::Length => 5,
            Refusal::Cap => 6,
            Refusal::Mark => 7,
            Refusal::Edge => 8,
            Refusal::Safety => 9,
            Refusal::Row => 10,
            Refusal::Side => 11,
            Refusal::Question => 12,
            Refusal::Allowance => 13,
            Refusal::Command => 14,
            Refusal::Start => 15,
            Refusal::Reach => 16,
            Refusal::Room => 17,
            Refusal::Missing => 18,
            Refusal::Reading => 19,
            Refusal::Order => 20,
            Refusal::Overlap => 22,
        }
    }
}
