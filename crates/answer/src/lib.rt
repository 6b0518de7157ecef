// The table of refused orders: why an order is refused, and the number that a call gives for it.
#![tactic(auto)]

ghost use Rattle.std.specs.Prelude.{◌≡◌};
ghost use Rattle.answer.specs.Answer.{refusal_number, number_of};

/// Why an order is refused: one case for each line of the table, with its number.
#[derive(Clone, Copy, Debug, PartialEq, Eq)]
pub enum Refusal {
    JobLength = 1,
    JobVersion = 2,
    HeaderRange = 3,
    SectionBytes = 4,
    SectionRules = 5,
    ChildlessKind = 6,
    Residents = 7,
    DemandOverTable = 8,
    DemandOverFixtures = 9,
    CatalogueShape = 10,
    CatalogueRules = 11,
    SizeList = 12,
    SizeTooSmall = 13,
    ResultShort = 14,
    WorkShort = 15,
    NoSuitableList = 16,
    MeterList = 17,
    NoMeter = 18,
    LossList = 19,
    NotHot = 20,
    HeatRange = 21,
}

// The number of the table. A cast, since it is the only way from a case to its number.
impl From<Refusal> for u32 {
    ghost from_gives = { λ refusal n. n ≡ refusal_number refusal };

    fn from(refusal: Refusal) -> u32 {
        refusal as u32
    }
}

/// What a call to C gives back: the number of the table, or 0 for a result.
pub fn number(answer: Result<(), Refusal>) -> u32
    ensures { result ≡ number_of answer }
{
    match answer {
        Ok(()) => 0,
        Err(refusal) => u32::from(refusal),
    }
}
