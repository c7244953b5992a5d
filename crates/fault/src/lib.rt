// The first thing that is wrong with a line that is refused by 1, and how many digits stand before it.

#![tactic(auto)]

ghost use Rattle.std.specs.Prelude.{◌≡◌};
ghost use Rattle.fault.specs.Fault.{is_digit, is_lower, leading, marked, byte_fault, wrong_at, fault_of};

// The first thing that is wrong with a line: a byte-order mark, a blank line, an LF or the end of the file before eight digits, the end of the
// file before the LF, a CR, a blank or a tab, a digit or another byte in the place of the LF, a lower-case letter or another byte in the place of
// a digit.
#[derive(Clone, Copy)]
pub enum Fault {
    Mark,
    BlankLine,
    TooFew,
    Unfinished,
    NoLinefeed,
    Return,
    Blank,
    TooMany,
    NoEnd,
    LowerCase,
    NoDigit,
}

#[tactic(auto, unfolding(digits::specs::Digits::digit_of))]
fn is_digit(b: u8) -> bool
    ensures { result ≡ is_digit b }
{
    matches!(b, b'0'..=b'9' | b'A'..=b'F')
}

fn is_lower(b: u8) -> bool
    ensures { result ≡ is_lower b }
{
    matches!(b, b'a'..=b'f')
}

// How many digits stand first on a line, of eight.
pub fn leading_digits(line: &[u8]) -> usize
    ensures { result ≡ leading 8 line.now }
{
    line.iter()
        .take(8)
        .take_while(|byte| is_digit(**byte))
        .count()
}

// Whether a text starts with a byte-order mark, of UTF-8 or of UTF-16.
fn has_mark(line: &[u8]) -> bool
    ensures { result ≡ marked line.now }
{
    matches!(
        line,
        [0xEF, 0xBB, 0xBF, ..] | [0xFF, 0xFE, _, ..] | [0xFE, 0xFF, _, ..]
    )
}

// What is wrong with a byte behind c digits.
fn byte_fault(b: u8, c: usize) -> Fault
    ensures { result ≡ byte_fault b c }
{
    match b {
        b'\n' if c == 0 => Fault::BlankLine,
        b'\n' => Fault::TooFew,
        b'\r' => Fault::Return,
        b' ' | b'\t' => Fault::Blank,
        _ if c == 8 && (is_digit(b) || is_lower(b)) => Fault::TooMany,
        _ if c == 8 => Fault::NoEnd,
        _ if is_lower(b) => Fault::LowerCase,
        _ => Fault::NoDigit,
    }
}

// The first thing that is wrong with a line, behind c digits.
fn wrong_at(line: &[u8], c: usize) -> Fault
    ensures { result ≡ wrong_at line.now c }
{
    match line.get(c) {
        Some(byte) => byte_fault(*byte, c),
        None if c == 8 => Fault::NoLinefeed,
        None => Fault::Unfinished,
    }
}

// The same at a place of a file; a mark stands at its start.
pub fn fault_of(line: &[u8], place: u32, c: usize) -> Fault
    ensures { result ≡ fault_of line.now place c }
{
    if place == 0 && has_mark(line) {
        return Fault::Mark;
    }
    wrong_at(line, c)
}
