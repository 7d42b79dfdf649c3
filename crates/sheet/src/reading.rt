ghost use Rattle.std.specs.Prelude.{◌≡◌};
ghost use Rattle.sheet.specs.Sheets.{Reads};
ghost use Rattle.sheet.specs.Steps.{FirstSteps, LaterSteps};

use fields::{cores_of, task_of};
use reader::Reader;
use tasks::{Draft, Proposal, Refusal};

// Reads the sheet's lines into the draft, each wholly before the next.
// A refused line leaves the draft with the cores and tasks of the lines before it.
pub fn read_sheet(sheet: &[u8], draft: &mut Draft) -> Result<(), Refusal>
    ensures { Reads sheet.now draft.old result draft.new }
{
    let mut reader = Reader::new(sheet);
    read_cores(&mut reader, draft)?;
    while !reader.at_end() {
        read_task(&mut reader, draft)?;
    }
    Ok(())
}

// The first line: `(sheet (cores N))`.
fn read_cores(reader: &mut Reader<'_>, draft: &mut Draft) -> Result<(), Refusal>
    ensures { FirstSteps reader.old draft.old result reader.new draft.new }
{
    let line = reader.read_line()?;
    let cores = cores_of(line.bytes).ok_or(Refusal::WrongFields { at: line.at })?;
    draft.new_draft_at(line.at, cores)
}

// A later line: `(task (id N) (period N) (deadline N) (blocks N*) (points N*))`.
fn read_task(reader: &mut Reader<'_>, draft: &mut Draft) -> Result<(), Refusal>
    ensures { LaterSteps reader.old draft.old result reader.new draft.new }
{
    let line = reader.read_line()?;
    let task = task_of(line.bytes).ok_or(Refusal::WrongFields { at: line.at })?;
    let proposal = Proposal::from(&task);
    draft.add_at(line.at, &proposal)
}
