// The refusals of the rules' table as an error enum, and what a test or a reading hands on when it refuses. An entry point answers three
// numbers; the functions below it answer a Result.
#![tactic(auto)]

ghost use Rattle.std.specs.Prelude.{◌≡◌};
ghost use Rattle.papers.specs.Refusals.{answer};
ghost use Rattle.refusals.specs.Answers.{answer_refusing, answer_from, refused_without_count};

use papers::Answer;

// The refusals. The number of each is its number in the rules' table.
#[derive(Clone, Copy, Debug, PartialEq, Eq)]
pub enum Refusal {
    TooManyColumns = 1,
    UnknownMark = 2,
    LimitTooHigh = 3,
    StartsAtFault = 4,
    RowOutOfRange = 5,
    RowNotAscending = 6,
    SliceTooShort = 7,
    FactorRowsDoNotFit = 8,
    PeakOverLimit = 9,
    BytesDoNotFit = 10,
    NotTheKey = 11,
    BytesEnd = 12,
    NumberTooLong = 13,
    ValueOutOfRange = 14,
    BytesFollow = 15,
    ColumnRepeated = 16,
    ListNotTheFill = 17,
    SubtreeScattered = 18,
    PopsNotChildren = 19,
    PeakNotDeclared = 20,
    TooFewUpdates = 21,
    RowOutsideFront = 22,
    RoomExceeded = 23,
    UpdatesLeft = 24,
    BadText = 25,
    OverProgramSizes = 26,
    KeyUnreadable = 27,
}

// What a test hands on when it refuses: which refusal, its place and its count.
#[derive(Clone, Copy, Debug, PartialEq, Eq)]
pub struct Refused {
    pub refusal: Refusal,
    pub place: u64,
    pub count: u64,
}

// What is at fault in bytes, in a text or at a step: which refusal, and its place.
#[derive(Clone, Copy, Debug, PartialEq, Eq)]
pub struct Fault {
    pub refusal: Refusal,
    pub place: u64,
}

// A fault refuses with no count.
impl From<Fault> for Refused {
    ghost from_gives = { λ fault refused. refused ≡ refused_without_count fault };

    fn from(fault: Fault) -> Refused {
        Refused {
            refusal: fault.refusal,
            place: fault.place,
            count: 0,
        }
    }
}

// The answer of an entry point that refuses.
impl From<Refused> for Answer {
    ghost from_gives = { λ refused answered. answered ≡ answer_refusing refused };

    fn from(refused: Refused) -> Answer {
        Answer {
            number: refused.refusal as u64,
            place: refused.place,
            count: refused.count,
        }
    }
}

// The answer of an entry point that is done, with a count.
pub fn done(count: u64) -> Answer
    ensures { result ≡ answer 0 0 count }
{
    Answer {
        number: 0,
        place: 0,
        count,
    }
}

// The answer for this outcome: done with a count, or refused.
pub fn answer(outcome: Result<u64, Refused>) -> Answer
    ensures { result ≡ answer_from outcome }
{
    match outcome {
        Ok(count) => done(count),
        Err(refused) => Answer::from(refused),
    }
}

// Refuses at a place, with a count.
pub fn refuse<T>(refusal: Refusal, place: u64, count: u64) -> Result<T, Refused>
    ensures { result ≡ Err (record { refusal = refusal; place = place; count = count }) }
{
    Err(Refused {
        refusal,
        place,
        count,
    })
}
