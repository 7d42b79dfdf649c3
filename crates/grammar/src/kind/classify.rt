ghost use Rattle.std.specs.Prelude.{◌≡◌};
ghost use Rattle.grammar.specs.Kinds.{kind};

use crate::kind::Kind;

// What the grammar takes a character for.
pub fn kind_of(c: char) -> Kind
    ensures { result ≡ kind c }
{
    match c {
        '(' => Kind::Open,
        ')' => Kind::Close,
        ' ' => Kind::Space,
        '\n' => Kind::LineFeed,
        'a'..='z' => Kind::Letter,
        '0' => Kind::Zero,
        '1'..='9' => Kind::Digit,
        _ => Kind::Other,
    }
}
