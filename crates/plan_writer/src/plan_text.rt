ghost use Rattle.std.proofs.Common.{rules};
ghost use Rattle.std.specs.Prelude.{◌≡◌, ◌+◌, ◌≤◌, ◌++◌, length};
ghost use Rattle.tasks.specs.Stored.{task_of};
ghost use Rattle.tasks.specs.Tables.{sealed};
ghost use Rattle.cuts.specs.Allowed.{flags_at};
ghost use Rattle.clearing.specs.Clearing.{table_in, rows_in};
ghost use Rattle.writer.specs.Texts.{text_of, Writes};
ghost use Rattle.plan_writer.specs.Lines.{cut_numbers, row_line, plan_line, plan_text};

use clearing::Cleared;
use plans::{Row, cost_of};
use tasks::{Refusal, Sealed, Task};
use writer::{Tell, Text, write};

// The line of a task has 19 bytes, two numbers and at most 15 cuts, each a space and a number of at most 20 digits.
const MAX_ROW: usize = 374;

// The first line has 32 bytes and three numbers.
const MAX_HEAD: usize = 92;

// No plan is longer: its first line, and the lines of 24 tasks.
pub const MAX_TEXT: usize = 9_216;

// Appends the numbers of the cuts. A text of their own would be filled and copied for each row.
#[tactic(auto, using(crate::proofs::PlanTexts::flags_front))]
fn add_cuts(text: &mut Text<MAX_ROW>, task: &Task, row: &Row)
    requires { length (text_of text.old) ≤ 59 }
    ensures text { text_of text.new ≡ text_of text.old ++ cut_numbers 1 (flags_at (task_of task.now).points row.now.cuts) }
    ensures len { length (text_of text.new) ≤ length (text_of text.old) + 315 }
{
    for (point, cut) in (1..).zip(&row.cuts[..task.points.len()]) {
        if *cut {
            text.word(b" ");
            text.number(point);
        }
    }
}

// The line of a task.
fn row_text(task: &Task, row: &Row) -> Text<MAX_ROW>
    ensures { text_of result ≡ row_line (task_of task.now) row.now }
{
    let mut text = Text::new();
    text.word(b"(on ");
    text.number(u64::from(row.core));
    text.word(b" (id ");
    text.number(u64::from(task.id));
    text.word(b") (cuts");
    add_cuts(&mut text, task, row);
    text.word(b"))\n");
    text
}

// The first line: the table's cores and span, and what the rows cost.
fn head_text(table: &Sealed, rows: &[Row]) -> Text<MAX_HEAD>
    ensures { text_of result ≡ plan_line (sealed table.now) rows.now }
{
    let mut text = Text::new();
    text.word(b"(plan (cores ");
    text.number(u64::from(table.cores()));
    text.word(b") (span ");
    text.number(u64::from(table.span()));
    text.word(b") (cost ");
    text.number(cost_of(table, rows));
    text.word(b"))\n");
    text
}

// A cleared plan, in a type of this crate: `Tell` and `Cleared` are of others.
#[derive(Clone, Copy)]
struct Plan<'a>(&'a Cleared);

// The first line, and one line for each task, in table order.
impl Tell<MAX_TEXT> for Plan<'_> {
    ghost text = { λ plan. plan_text (table_in plan.0.now) (rows_in plan.0.now) };

    ghost small = { Prim.search rules };

    #[tactic(auto, using(crate::proofs::PlanTexts::few_tasks))]
    fn text(&self) -> Text<MAX_TEXT> {
        let (table, rows) = (self.0.table(), self.0.rows());
        let mut text = Text::new();
        text.word(head_text(table, rows).as_slice());
        for (task, row) in table.tasks().iter().zip(rows) {
            text.word(row_text(task, row).as_slice());
        }
        text
    }
}

// Writes a cleared plan: its first line, and then one line for each task.
pub fn write_plan(plan: &Cleared, out: &mut [u8]) -> Result<usize, Refusal>
    ensures { Writes (plan_text (table_in plan.now) (rows_in plan.now)) out.old result out.new }
{
    write(&Plan(plan), out)
}
