// What the programs share: sheets are read and answered, and the answers are printed.
// It reads whole inputs, so it asks for memory, as nothing below it does.
#![tactic(auto)]

ghost use Rattle.std.specs.Prelude.{◌≡◌, ℕ, ◌≤◌, List, Ok, length, take, IfOk, OnOk, IfSome};
ghost use Rattle.std.specs.Io.KnownBytes.{Appends};
ghost use Rattle.console.specs.Answers.{Answered, GivenBy, NamedAnswers};

use press::MAX_SHEET;
use std::alloc::Global;
use std::io::{Read, Write};
use std::{env, fs, io};

// What a reader gives, as far as a program looks at it.
pub fn read_front<R: Read + Drop>(heap: Global, from: R) -> io::Result<Vec<u8>>
    ensures { IfOk result (λ sheet. IfSome (R.remaining from) (λ bs. sheet.items ≡ take 65536 bs)) }
{
    let mut sheet = Vec::new(heap);
    from.take(MAX_SHEET).read_to_end(&mut sheet)?;
    Ok(sheet)
}

// What `answer` writes of a sheet into the buffer.
fn answered<'a, F: Fn(&[u8], &mut [u8]) -> anyhow::Result<usize>>(
    answer: &F,
    sheet: &[u8],
    buffer: &'a mut [u8],
) -> anyhow::Result<&'a [u8]>
    requires callable { F.IsAlwaysCallable answer.now }
    requires within { (s : _) (b : _) (n : ℕ) (a : _) → F.post answer.now s b (Ok n) a → n ≤ length a.now }
    ensures { IfOk result (λ text. Answered F.post answer.now sheet.now text.now) }
{
    let len = answer(sheet, buffer)?;
    Ok(&buffer[..len])
}

// Writes the answer to each of the sheets in this folder that the arguments name, behind its name.
pub fn write_named<F: Fn(&[u8], &mut [u8]) -> anyhow::Result<usize>, W: Write>(
    rt: &HostRuntime,
    answer: F,
    buffer: &mut [u8],
    to: &mut W,
) -> anyhow::Result<()>
    requires callable { F.IsAlwaysCallable answer }
    requires within { (s : _) (b : _) (n : ℕ) (a : _) → F.post answer s b (Ok n) a → n ≤ length a.now }
    ensures { OnOk result ((bs : List ℕ) × NamedAnswers (GivenBy F.post answer) bs × Appends (W.contents to.old) (W.contents to.new) bs) }
{
    for name in env::args(rt)?.skip(1) {
        let path = format!(in rt.alloc(); "{name}.sheet")?;
        let sheet = read_front(rt.alloc(), fs::open(rt, path.as_str())?)?;
        let text = answered(&answer, sheet.as_slice(), buffer)?;
        write!(to, "{name}: ")?;
        to.write_all(text)?;
    }
    Ok(())
}

#[cfg(test)]
mod tests {
    use crate::read_front;
    use std::test::Fail;

    #[test]
    fn reads_as_much_as_a_sheet_may_have(rt: HostRuntime) -> Result<(), Fail> {
        let long = [b'('; 65_537];
        assert_eq!(rt; read_front(rt.alloc(), &long[..])?.len(), 65_536);
        let short = [b'('; 3];
        assert_eq!(rt; read_front(rt.alloc(), &short[..])?.len(), 3);
        Ok(())
    }
}
