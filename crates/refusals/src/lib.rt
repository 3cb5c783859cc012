// The refusals of document 01, each with its number, by where they are found. Number 8, the end of the pass, never comes, and has no name here.
#![tactic(auto)]

ghost use Rattle.std.specs.Prelude.{◌≡◌};
ghost use Rattle.refusals.specs.Numbers.{number_of, refusal_of, numbered};

// What a call is refused for.
#[derive(Clone, Copy, Debug, PartialEq, Eq)]
pub enum Refusal {
    EntryLength = 1,
    LevelTable = 2,
    Chains = 3,
    Docket = 4,
    Clock = 5,
    Settings = 6,
    Full = 7,
    Line = 9,
    Date = 10,
}

impl Refusal {
    // Its number in the table of refusals.
    pub fn number(self) -> u32
        ensures { result ≡ number_of self }
    {
        self as u32
    }
}

// The number with which a call answers that tells nothing else: 0 where it is not refused.
pub fn refusal_number(answer: Result<(), Refusal>) -> u32
    ensures { result ≡ refusal_of answer }
{
    match answer {
        Ok(()) => 0,
        Err(refusal) => refusal.number(),
    }
}

// The same answer with the number in the refusal's place.
pub fn numbered<T>(answer: Result<T, Refusal>) -> Result<T, u32>
    ensures { result ≡ numbered answer }
{
    match answer {
        Ok(found) => Ok(found),
        Err(refusal) => Err(refusal.number()),
    }
}
