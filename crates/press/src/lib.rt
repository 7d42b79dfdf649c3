// The calls that the programs make.
#![tactic(auto)]

ghost use Rattle.press.specs.Answers.{Answers};

use sheet::read_sheet;
use tasks::{Draft, Refusal};
pub use writer::MAX_LINE;
use writer::write;

// How much of its input a program hands over; what lies beyond is not seen.
pub const MAX_SHEET: u64 = 65_536;

// Reads the sheet, and writes the line that tells its table or its refusal.
pub fn answer(sheet: &[u8], out: &mut [u8]) -> Result<usize, Refusal>
    ensures { Answers sheet.now out.old result out.new }
{
    let mut draft = Draft::new();
    match read_sheet(sheet, &mut draft) {
        Ok(()) => write(&draft.seal(), out),
        Err(refusal) => write(&refusal, out),
    }
}
