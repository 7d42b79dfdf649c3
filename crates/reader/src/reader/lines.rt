ghost use Rattle.std.specs.Prelude.{◌≡◌, ◌+◌, ◌-◌, ◌^◌, ◌<◌, ◌≤◌, length};
ghost use Rattle.reader.specs.Lines.{LineSteps};
ghost use Rattle.reader.specs.Progress.{refused, word_refusal, number_refusal, FormSteps, ItemSteps};

use crate::reader::{Line, Reader, Token};
use tasks::Refusal;

// The most letters of a word.
const MAX_LETTERS: usize = 8;

// The most digits of a number.
pub const MAX_DIGITS: usize = 7;

// The most forms that are open at once, the line's own counted.
const MAX_DEPTH: u8 = 4;

// Refuses the ninth letter of the word that stands at the offset.
fn check_word(letters: &[u8], at: usize) -> Result<(), Refusal>
    requires { at + length letters.now < 2 ^ 64 }
    ensures { refused result ≡ word_refusal letters.now at }
{
    if letters.len() > MAX_LETTERS {
        return Err(Refusal::ForbiddenByte {
            at: at + MAX_LETTERS,
        });
    }
    Ok(())
}

// Refuses a digit after a leading 0, or else the whole number at its start if it is too long.
pub fn check_number(digits: &[u8], at: usize) -> Result<(), Refusal>
    requires { at + length digits.now < 2 ^ 64 }
    ensures { refused result ≡ number_refusal digits.now at }
{
    match digits {
        [b'0', _, ..] => Err(Refusal::ForbiddenByte { at: at + 1 }),
        _ if digits.len() > MAX_DIGITS => Err(Refusal::LongNumber { at }),
        _ => Ok(()),
    }
}

impl<'a> Reader<'a> {
    // After a '(': a word, items each after one space, and ')'.
    // Inside this form others nest at most `allow` deep.
    #[cycle(read_form_read_item)]
    fn read_form(&mut self, allow: u8) -> Result<(), Refusal>
        requires { allow ≤ 3 }
        ensures { FormSteps (4 - allow) self.old result self.new }
    {
        let word = self.next()?;
        let Token::Word(letters) = word.token else {
            return Err(Refusal::ForbiddenByte { at: word.at });
        };
        check_word(letters, word.at)?;
        loop {
            let mark = self.next()?;
            match mark.token {
                Token::Close => return Ok(()),
                Token::Space => self.read_item(allow)?,
                _ => return Err(Refusal::ForbiddenByte { at: mark.at }),
            }
        }
    }

    // After a space: a number, or '(' and again a form.
    #[cycle(read_form_read_item)]
    fn read_item(&mut self, allow: u8) -> Result<(), Refusal>
        requires { allow ≤ 3 }
        ensures { ItemSteps (4 - allow) self.old result self.new }
    {
        let item = self.next()?;
        match item.token {
            Token::Number(digits) => check_number(digits, item.at),
            Token::Open => {
                if allow == 0 {
                    return Err(Refusal::DeepForm { at: item.at });
                }
                self.read_form(allow - 1)
            }
            _ => Err(Refusal::ForbiddenByte { at: item.at }),
        }
    }

    // The lawful line that stands next. A refused line leaves the reader as it was.
    pub fn read_line(&mut self) -> Result<Line<'a>, Refusal>
        ensures { LineSteps self.old result self.new }
    {
        let mut ahead = *self;
        let open = ahead.next()?;
        let Token::Open = open.token else {
            return Err(Refusal::ForbiddenByte { at: open.at });
        };
        ahead.read_form(MAX_DEPTH - 1)?;
        let feed = ahead.next()?;
        let Token::LineFeed = feed.token else {
            return Err(Refusal::ForbiddenByte { at: feed.at });
        };
        let sheet = self.sheet;
        let line = Line {
            bytes: &sheet[self.position..ahead.position],
            at: self.position,
        };
        *self = ahead;
        Ok(line)
    }
}
