use crate::values::TaskLine;
use tasks::Proposal;

// The task of a line, as it is proposed to a table.
impl<'a> From<&'a TaskLine> for Proposal<'a> {
    ghost use Rattle.std.specs.Prelude.{◌≡◌};
    ghost use Rattle.tasks.specs.Stored.{proposed};
    ghost use Rattle.fields.specs.Values.{kept};

    ghost from_gives = { λ line p. proposed p ≡ kept line.now };

    fn from(line: &'a TaskLine) -> Proposal<'a> {
        Proposal {
            id: line.id,
            period: line.period,
            deadline: line.deadline,
            blocks: line.blocks.as_slice(),
            points: line.points.as_slice(),
        }
    }
}
