ghost use Rattle.std.proofs.Common.{rules};
ghost use Rattle.tasks.specs.Tables.{sealed};
ghost use Rattle.writer.specs.Lines.{refusal_line, table_line};

use crate::tell::Tell;
use crate::text::Text;
use tasks::{Refusal, Sealed};

// No line is longer: that of a table has 34 bytes and three numbers of at most 20 digits.
pub const MAX_LINE: usize = 96;

impl Tell<MAX_LINE> for Refusal {
    ghost text = { refusal_line };

    ghost small = { Prim.search rules };

    fn text(&self) -> Text<MAX_LINE> {
        let mut line = Text::new();
        line.word(b"(refused (number ");
        line.number(u64::from(self.number()));
        line.word(b") (at ");
        line.number(self.at() as u64);
        line.word(b"))\n");
        line
    }
}

impl Tell<MAX_LINE> for Sealed {
    ghost text = { λ table. table_line (sealed table) };

    ghost small = { Prim.search rules };

    fn text(&self) -> Text<MAX_LINE> {
        let mut line = Text::new();
        line.word(b"(table (cores ");
        line.number(u64::from(self.cores()));
        line.word(b") (span ");
        line.number(u64::from(self.span()));
        line.word(b") (tasks ");
        line.number(self.tasks().len() as u64);
        line.word(b"))\n");
        line
    }
}

#[cfg(test)]
mod tests {
    use crate::tell::write;
    use std::test::Fail;
    use tasks::{Draft, Proposal, Refusal};

    #[test]
    fn tells_a_refusal(rt: HostRuntime) {
        let mut out = [7; 30];
        assert_eq!(rt; write(&Refusal::NoLawfulPlan, &mut out).ok(), Some(28));
        let line: &[u8] = b"(refused (number 9) (at 0))\n\x07\x07";
        assert!(rt; &out[..] == line, "the line, and the rest as it was");
        let mut wide = [0; 47];
        let last = Refusal::ForbiddenByte { at: usize::MAX };
        assert_eq!(rt; write(&last, &mut wide).ok(), Some(47));
        let line: &[u8] = b"(refused (number 1) (at 18446744073709551615))\n";
        assert!(rt; &wide[..] == line, "the largest place");
    }

    #[test]
    fn refuses_a_short_buffer(rt: HostRuntime) -> Result<(), Fail> {
        let mut out = [7; 27];
        match write(&Refusal::NoLawfulPlan, &mut out) {
            Ok(_) => return Err(Fail::new("written")),
            Err(short) => {
                assert_eq!(rt; short.number(), 21);
                assert_eq!(rt; short.at(), 28);
            }
        }
        assert!(rt; out == [7; 27], "the buffer as it was");
        Ok(())
    }

    #[test]
    fn tells_a_table(rt: HostRuntime) {
        let mut draft = Draft::new();
        assert!(rt; draft.new_draft(4).is_ok());
        let task = Proposal {
            id: 7,
            period: 1_000_000,
            deadline: 12,
            blocks: &[3, 1],
            points: &[1],
        };
        assert!(rt; draft.add(&task).is_ok());
        let mut out = [0; 43];
        assert_eq!(rt; write(&draft.seal(), &mut out).ok(), Some(43));
        let line: &[u8] = b"(table (cores 4) (span 1000000) (tasks 1))\n";
        assert!(rt; &out[..] == line);
    }
}
