// Why a call refuses: the table of refusals, by name.
ghost use Rattle.std.specs.Prelude.{◌≡◌};
ghost use Rattle.plan.specs.Refusals.{number, number_of};

// Each has the number that the table gives it.
#[derive(Clone, Copy, PartialEq, Eq)]
pub enum Refusal {
    // The fields of a sheet.
    Sheet = 1,
    Levels = 2,
    // How many base factors there are.
    Factors = 3,
    // How many added factors and block words.
    Counts = 4,
    // A word, or a sign.
    Word = 5,
    // Two added factors with one word.
    SameWord = 6,
    // Block words that combine to the empty word.
    Dependent = 7,
    // A factor that is lost to blocks.
    LostFactor = 8,
    // A call that is for two levels.
    ThreeLevels = 9,
    // A factor, letter or run that the plan has not.
    NotInPlan = 10,
    // Readings, totals, rows, marks or a column of another length.
    Length = 11,
    // A value beyond its limit.
    Beyond = 12,
    Marks = 13,
    // Totals that no readings have.
    NoReadings = 14,
    // How often a run is made.
    Repeats = 16,
    // How many block words are asked for.
    WordCount = 17,
    // A column with too few places.
    Room = 18,
    // A main effect that meets an interaction of two factors.
    Meeting = 21,
}

impl Refusal {
    // Its number in the table.
    pub fn number(self) -> u8
        ensures { result ≡ number self }
    {
        self as u8
    }
}

// The number of an answer's refusal, and 0 where nothing is refused.
pub fn number_of(answer: Result<(), Refusal>) -> u8
    ensures { result ≡ number_of answer }
{
    match answer {
        Ok(()) => 0,
        Err(refusal) => refusal.number(),
    }
}
