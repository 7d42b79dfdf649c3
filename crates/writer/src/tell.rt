ghost use Rattle.std.specs.Prelude.{◌≡◌, ℕ, ◌^◌, ◌<◌, List};
ghost use Rattle.writer.specs.Texts.{text_of, Writes};

use crate::text::Text;
use tasks::Refusal;

// A value that a text of at most N bytes tells.
pub trait Tell<const N: usize> {
    // the text, byte for byte
    ghost text: { Self → List ℕ };

    fn text(&self) -> Text<N>
        ensures { text_of result ≡ text self.now };

    // few enough that a call can hold the text
    ghost small: { N < 2 ^ 32 };
}

// Writes the text of a value over the front of `out`, or refuses where `out` is shorter.
pub fn write<const N: usize, T: Tell<N>>(item: &T, out: &mut [u8]) -> Result<usize, Refusal>
    ensures { Writes (T.text item.now) out.old result out.new }
{
    item.text().copy_into(out)
}
