ghost use Rattle.std.specs.Prelude.{◌≡◌};
ghost use Rattle.tasks.specs.Refusals.{told};

use super::Refusal;

impl Refusal {
    // The number by which the refusal is known.
    pub fn number(&self) -> u8
        ensures { result ≡ (told self.now).number }
    {
        match *self {
            Refusal::ForbiddenByte { .. } => 1,
            Refusal::LongNumber { .. } => 2,
            Refusal::DeepForm { .. } => 3,
            Refusal::WrongFields { .. } => 4,
            Refusal::OutOfRange { .. } => 5,
            Refusal::IdTaken { .. } => 6,
            Refusal::TableFull { .. } => 7,
            Refusal::LongSpan { .. } => 8,
            Refusal::NoLawfulPlan => 9,
            Refusal::WrongRow { .. } => 10,
            Refusal::WrongCut { .. } => 11,
            Refusal::LongRegion { .. } => 12,
            Refusal::OverloadedCore { .. } => 13,
            Refusal::NoSuchPlace { .. } => 14,
            Refusal::EarlyRelease { .. } => 15,
            Refusal::UnfinishedJob { .. } => 16,
            Refusal::NoSuchCore { .. } => 17,
            Refusal::NothingUnderWay { .. } => 18,
            Refusal::ClockEnded => 19,
            Refusal::WrongRowLength => 20,
            Refusal::ShortBuffer { .. } => 21,
        }
    }

    // The offset, place, core or byte count that the refusal names, 0 where it names none.
    pub fn at(&self) -> usize
        ensures { result ≡ (told self.now).at }
    {
        match *self {
            Refusal::ForbiddenByte { at }
            | Refusal::LongNumber { at }
            | Refusal::DeepForm { at }
            | Refusal::WrongFields { at }
            | Refusal::OutOfRange { at }
            | Refusal::IdTaken { at }
            | Refusal::TableFull { at }
            | Refusal::LongSpan { at } => at,
            Refusal::WrongRow { place }
            | Refusal::WrongCut { place }
            | Refusal::LongRegion { place }
            | Refusal::NoSuchPlace { place }
            | Refusal::EarlyRelease { place }
            | Refusal::UnfinishedJob { place } => place,
            Refusal::OverloadedCore { core }
            | Refusal::NoSuchCore { core }
            | Refusal::NothingUnderWay { core } => core,
            Refusal::ShortBuffer { needed } => needed,
            Refusal::NoLawfulPlan | Refusal::ClockEnded | Refusal::WrongRowLength => 0,
        }
    }
}
