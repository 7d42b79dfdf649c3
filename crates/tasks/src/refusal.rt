// Why a call is refused. The impl stands in `told`, since specs/Refusals names the enum.
mod told;

// One case for each refusal of the product, with the place that it names.
#[derive(Clone, Copy, PartialEq, Eq, Debug)]
pub enum Refusal {
    // a byte of a sheet, or its end, that the grammar forbids
    ForbiddenByte { at: usize },
    // a number of more than seven digits
    LongNumber { at: usize },
    // a form nested five deep
    DeepForm { at: usize },
    // a line of other words or fields than those asked for
    WrongFields { at: usize },
    // a value out of range, or a wrong number of blocks or points
    OutOfRange { at: usize },
    // a task of this id is in the table
    IdTaken { at: usize },
    // the table has 24 tasks
    TableFull { at: usize },
    // the span would be greater than 1,000,000
    LongSpan { at: usize },
    // no plan of the table is lawful
    NoLawfulPlan,
    // a wrong number of rows (place 0), or a wrong core number
    WrongRow { place: usize },
    // a cut at a point that the task lacks
    WrongCut { place: usize },
    // a region longer than its limit
    LongRegion { place: usize },
    // a core whose tasks do not hold together
    OverloadedCore { core: usize },
    // no task has this place
    NoSuchPlace { place: usize },
    // less than a period since the last accepted release
    EarlyRelease { place: usize },
    // the former job is not idle
    UnfinishedJob { place: usize },
    // the cabinet has no such core
    NoSuchCore { core: usize },
    // no region is under way on the core
    NothingUnderWay { core: usize },
    // the clock is at its end
    ClockEnded,
    // the row has not one number for each core
    WrongRowLength,
    // the buffer is too short
    ShortBuffer { needed: usize },
}
