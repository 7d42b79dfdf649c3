// The characters of a sheet, by what the grammar asks of them.
pub mod classify;

#[derive(Clone, Copy, PartialEq, Eq, Debug)]
pub enum Kind {
    Open,
    Close,
    Space,
    LineFeed,
    Letter,
    // the digit 0, which begins no longer number
    Zero,
    // a digit from 1 to 9
    Digit,
    Other,
}
