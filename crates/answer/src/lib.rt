// What a caller is told: that the call was done, or one of the numbered refusals (document 01, "Numbers a caller may get back").
#![tactic(auto)]

ghost use Rattle.std.specs.Prelude.{◌≡◌};
ghost use Rattle.answer.specs.Told.{told, told_refusal};

#[derive(Clone, Copy, Debug, PartialEq, Eq)]
pub enum Refusal {
    // The line of a settings text, counted from 1.
    Text(usize),
    Range(usize),
    // The number of the relation that fails, and the controller.
    Relation(usize, usize),
    Board,
    Length,
    // The bytes that the output needs.
    Room(usize),
    // The index of the record in its block, counted from 0.
    Record(usize),
    Life,
    Store,
}

pub type Answer = Result<(), Refusal>;

impl Refusal {
    // Document 01's number of the refusal.
    pub fn number(self) -> u64
        ensures { result ≡ (told_refusal self).number }
    {
        match self {
            Refusal::Text(_) => 1,
            Refusal::Range(_) => 2,
            Refusal::Relation(_, _) => 3,
            Refusal::Board => 4,
            Refusal::Length => 5,
            Refusal::Room(_) => 6,
            Refusal::Record(_) => 7,
            Refusal::Life => 8,
            Refusal::Store => 9,
        }
    }
}

// The number of what a caller is told, 0 where the call was done.
pub fn number(answer: Answer) -> u64
    ensures { result ≡ (told answer).number }
{
    match answer {
        Ok(()) => 0,
        Err(refusal) => refusal.number(),
    }
}
