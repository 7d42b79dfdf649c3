ghost use Rattle.std.specs.Prelude.{◌≡◌, [], ◌∷◌};
ghost use Rattle.grammar.specs.Forms.{Run, IsDigit, IsWord, IsNumber};
ghost use Rattle.reader.specs.Tokens.{rest, spells};
ghost use Rattle.fields.specs.Wanted.{AreNumbers};
ghost use Rattle.fields.specs.Values.{CoresOf, TaskOf};
ghost use Rattle.fields.specs.Pieces.{IsMark, TakesToken, Passes, PassesWord, ValueOf, TakesNumber, Takes, HasValue, HasValues, field_bytes, numbers_bytes, list_bytes, Finishes};

use crate::values::{KEPT, TaskLine};
use bounded::Bounded;
use reader::{Reader, Token, check_number};

// The cores of a line `(sheet (cores N))`.
pub fn cores_of(line: &[u8]) -> Option<u32>
    ensures { CoresOf line.now result }
{
    let mut fields = Fields::new(line);
    fields.opens(b"sheet")?;
    let cores = fields.field(b"cores")?;
    fields.ends()?;
    Some(cores)
}

// The task of a line `(task (id N) (period N) (deadline N) (blocks N*) (points N*))`.
pub fn task_of(line: &[u8]) -> Option<TaskLine>
    ensures { TaskOf line.now result }
{
    let mut fields = Fields::new(line);
    fields.opens(b"task")?;
    let id = fields.field(b"id")?;
    let period = fields.field(b"period")?;
    let deadline = fields.field(b"deadline")?;
    let blocks = fields.list(b"blocks")?;
    let points = fields.list(b"points")?;
    fields.ends()?;
    Some(TaskLine {
        id,
        period,
        deadline,
        blocks,
        points,
    })
}

// The value of some digits, where they are a lawful number.
fn number_of(digits: &[u8]) -> Option<u32>
    requires { Run IsDigit digits.now }
    ensures { ValueOf digits.now result }
{
    check_number(digits, 0).ok()?;
    // by hand: `parse` of a text that is first tested for UTF-8 took twice the time of a list's reading
    let mut value = 0u32;
    for digit in digits {
        value = value * 10 + u32::from(*digit - b'0');
    }
    Some(value)
}

// The tokens of a line that are left to read. Each method goes past what it names,
// or answers `None` where something else stands next.
#[derive(Drop)]
struct Fields<'a> {
    reader: Reader<'a>,
}

impl<'a> Fields<'a> {
    fn new(line: &'a [u8]) -> Fields<'a>
        ensures { rest result.reader ≡ line.now }
    {
        Fields {
            reader: Reader::new(line),
        }
    }

    // The next token.
    fn token(&mut self) -> Option<Token<'a>>
        ensures { TakesToken (rest self.old.reader) result (rest self.new.reader) }
    {
        self.reader.next().ok().map(|next| next.token)
    }

    // That token, which is one byte.
    fn mark(&mut self, wanted: Token) -> Option<()>
        requires { IsMark wanted }
        ensures { Passes (spells wanted.entry) (rest self.old.reader) result (rest self.new.reader) }
    {
        (self.token()? == wanted).then_some(())
    }

    // The start of the form of that name. A name is a literal of the callers, so that the check finds at each call that it is a
    // word: a type for names would only be built there, and taken apart here.
    fn opens(&mut self, name: &[u8]) -> Option<()>
        requires { IsWord name.now }
        ensures { PassesWord (40 ∷ name.now) (rest self.old.reader) result (rest self.new.reader) }
    {
        self.mark(Token::Open)?;
        let Token::Word(letters) = self.token()? else {
            return None;
        };
        (letters == name).then_some(())
    }

    // A space, and the start of the form of that name.
    fn nests(&mut self, name: &[u8]) -> Option<()>
        requires { IsWord name.now }
        ensures { PassesWord (32 ∷ 40 ∷ name.now) (rest self.old.reader) result (rest self.new.reader) }
    {
        self.mark(Token::Space)?;
        self.opens(name)
    }

    // A number.
    fn number(&mut self) -> Option<u32>
        ensures { TakesNumber (rest self.old.reader) result (rest self.new.reader) }
    {
        match self.token()? {
            Token::Number(digits) => number_of(digits),
            _ => None,
        }
    }

    // Any count of numbers, each after a space, and the end of their form.
    fn numbers(&mut self) -> Option<Bounded<u32, KEPT>>
        ensures { Takes numbers_bytes AreNumbers HasValues (rest self.old.reader) result (rest self.new.reader) }
    {
        let mut held = Bounded::new(0);
        loop {
            match self.token()? {
                Token::Close => return Some(held),
                Token::Space => {
                    let n = self.number()?;
                    // it is kept while there is room
                    let _ = held.push(n);
                }
                _ => return None,
            }
        }
    }

    // The field of that name with one number.
    fn field(&mut self, name: &[u8]) -> Option<u32>
        requires { IsWord name.now }
        ensures { Takes (field_bytes name.now) IsNumber HasValue (rest self.old.reader) result (rest self.new.reader) }
    {
        self.nests(name)?;
        self.mark(Token::Space)?;
        let n = self.number()?;
        self.mark(Token::Close)?;
        Some(n)
    }

    // The field of that name with any count of numbers.
    fn list(&mut self, name: &[u8]) -> Option<Bounded<u32, KEPT>>
        requires { IsWord name.now }
        ensures { Takes (list_bytes name.now) AreNumbers HasValues (rest self.old.reader) result (rest self.new.reader) }
    {
        self.nests(name)?;
        self.numbers()
    }

    // The end of the line's form, of the line, and of its bytes.
    fn ends(&mut self) -> Option<()>
        ensures { Finishes (rest self.old.reader) result }
    {
        self.mark(Token::Close)?;
        self.mark(Token::LineFeed)?;
        self.reader.at_end().then_some(())
    }
}
