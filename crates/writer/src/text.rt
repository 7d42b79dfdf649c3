ghost use Rattle.std.specs.Prelude.{◌≡◌, ◌+◌, ◌≤◌, [], ◌++◌, length, decimal};
ghost use Rattle.writer.specs.Texts.{text_of, Writes};

use bounded::Bounded;
use itoa::Buffer;
use tasks::Refusal;

// A text of at most N bytes that grows at its end.
// Tried `fmt::Write` and `write!`, and the goal `returns` of a line stayed open: no clause says when `write!` succeeds.
#[derive(Drop)]
pub struct Text<const N: usize> {
    bytes: Bounded<u8, N>,
}

impl<const N: usize> Text<N> {
    pub fn new() -> Self
        ensures { text_of result ≡ [] }
    {
        Text {
            bytes: Bounded::new(0),
        }
    }

    pub fn as_slice(&self) -> &[u8]
        ensures { result.now ≡ text_of self.now }
    {
        self.bytes.as_slice()
    }

    // Appends bytes that there is room for.
    #[tactic(auto, using(bounded::proofs::Pushed::extended))]
    pub fn word(&mut self, bytes: &[u8])
        requires { length (text_of self.old) + length bytes.now ≤ N }
        ensures text { text_of self.new ≡ text_of self.old ++ bytes.now }
        ensures len { length (text_of self.new) ≡ length (text_of self.old) + length bytes.now }
    {
        let _ = self.bytes.extend_from_slice(bytes);
    }

    // Appends n in base ten, with no leading zero: at most 20 digits, for which there is room.
    pub fn number(&mut self, n: u64)
        requires { length (text_of self.old) + 20 ≤ N }
        ensures text { text_of self.new ≡ text_of self.old ++ decimal n }
        ensures len { length (text_of self.new) ≤ length (text_of self.old) + 20 }
    {
        self.word(Buffer::new().format(n).as_bytes());
    }

    // Writes the text over the front of `out`, or refuses where `out` is shorter.
    pub fn copy_into(&self, out: &mut [u8]) -> Result<usize, Refusal>
        ensures { Writes (text_of self.now) out.old result out.new }
    {
        let text = self.as_slice();
        let needed = text.len();
        if out.len() < needed {
            return Err(Refusal::ShortBuffer { needed });
        }
        out[..needed].copy_from_slice(text);
        Ok(needed)
    }
}
