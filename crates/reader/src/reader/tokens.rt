ghost use Rattle.std.specs.Prelude.{◌≡◌, ◌≤◌, ℕ, Bool, length, ◌==◌};
ghost use Rattle.std.specs.Char.{is_ascii_digit};
ghost use Rattle.std.specs.Fn.{FnReturnsAt};
ghost use Rattle.std.specs.List.{before_first};
ghost use Rattle.reader.specs.Tokens.{rest, spells, TokenSteps};

use crate::reader::{Reader, Token, TokenAt};
use grammar::kind::Kind;
use grammar::kind::classify::kind_of;
use tasks::Refusal;

// The bytes in front of the first that passes the test.
fn front<F: Fn(&u8) -> bool>(bytes: &[u8], test: F) -> &[u8]
    requires { (f : _) (x : _) → F.pre f x }
    ensures within { length result.now ≤ length bytes.now }
    ensures value { (p : ℕ → Bool) → ((x : ℕ) (b : Bool) → FnReturnsAt F.Fn test x b → b ≡ p x) → result.now ≡ before_first p bytes.now }
{
    let len = bytes.iter().position(test).unwrap_or(bytes.len());
    &bytes[..len]
}

// Whether the character may stand in a number.
fn is_digit(c: char) -> bool
    ensures { result ≡ is_ascii_digit c }
{
    matches!(kind_of(c), Kind::Zero | Kind::Digit)
}

// How many bytes a token takes.
fn width(token: &Token) -> usize
    ensures { result ≡ length (spells token.now) }
{
    match token {
        Token::Word(run) | Token::Number(run) => run.len(),
        _ => 1,
    }
}

impl<'a> Reader<'a> {
    // At the start of a sheet.
    pub fn new(sheet: &'a [u8]) -> Reader<'a>
        ensures sheet { rest result ≡ sheet.now }
        ensures start { result.position ≡ 0 }
    {
        Reader { sheet, position: 0 }
    }

    // No byte is left.
    pub fn at_end(&self) -> bool
        ensures { result ≡ (length (rest self.now) == 0) }
    {
        self.position == self.sheet.len()
    }

    // The next token. The reader stays where no token begins.
    // It is no `Iterator`: a sheet's end is a refusal with its place, as a wrong byte is, and no `None`.
    pub fn next(&mut self) -> Result<TokenAt<'a>, Refusal>
        ensures { TokenSteps self.old result self.new }
    {
        let at = self.position;
        let sheet = self.sheet;
        let tail = &sheet[at..];
        let Some(first) = tail.first() else {
            return Err(Refusal::ForbiddenByte { at });
        };
        let token = match kind_of(char::from(*first)) {
            Kind::Open => Token::Open,
            Kind::Close => Token::Close,
            Kind::Space => Token::Space,
            Kind::LineFeed => Token::LineFeed,
            Kind::Letter => Token::Word(front(
                tail,
                |byte| kind_of(char::from(*byte)) != Kind::Letter,
            )),
            Kind::Zero | Kind::Digit => {
                Token::Number(front(tail, |byte| !is_digit(char::from(*byte))))
            }
            Kind::Other => return Err(Refusal::ForbiddenByte { at }),
        };
        self.position = at + width(&token);
        Ok(TokenAt { token, at })
    }
}
