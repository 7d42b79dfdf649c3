// A reader, its tokens and its lines alone: specs/ names them. The impls stand in the modules below.
ghost use Rattle.std.specs.Prelude.{◌≤◌, length};

pub mod lines;
pub mod tokens;

// A sheet, and how far it is read.
#[derive(Clone, Copy)]
pub struct Reader<'a> {
    sheet: &'a [u8],
    position: usize,
    ghost within: { position ≤ length sheet.now },
}

// A word is a run of letters and a number a run of digits, of any length.
#[derive(Clone, Copy, PartialEq)]
pub enum Token<'a> {
    Open,
    Close,
    Space,
    LineFeed,
    Word(&'a [u8]),
    Number(&'a [u8]),
}

// A token, and its offset in the sheet.
#[derive(Clone, Copy)]
pub struct TokenAt<'a> {
    pub token: Token<'a>,
    pub at: usize,
}

// The bytes of a lawful line, its line feed with them, and its offset in the sheet.
#[derive(Clone, Copy)]
pub struct Line<'a> {
    pub bytes: &'a [u8],
    pub at: usize,
}
