// Digits read and written: the value of each digit, the word of a line; the digits of a value, the line of a word.

#![tactic(auto)]

ghost use Rattle.std.specs.Prelude.{◌≡◌, ◌+◌, ◌*◌, ◌≤◌, ◌<◌, length, take, drop};
ghost use Rattle.digits.specs.Digits.{value_of, letter_of, digit_of, others, values_of, joined, DigitValues, digits_value, line_of, digits_of_sum, byte_of, digits, word_line, too_wide};

// What a byte that is no digit counts: more than eight digits can reach.
const NONE: u64 = 1 << 32;

// The value of each byte as a digit: eight of them add up to less than 2^32 exactly if all are digits.
static VALUES: [u64; 256] = [
    NONE, NONE, NONE, NONE, NONE, NONE, NONE, NONE, NONE, NONE, NONE, NONE, NONE, NONE, NONE, NONE,
    NONE, NONE, NONE, NONE, NONE, NONE, NONE, NONE, NONE, NONE, NONE, NONE, NONE, NONE, NONE, NONE,
    NONE, NONE, NONE, NONE, NONE, NONE, NONE, NONE, NONE, NONE, NONE, NONE, NONE, NONE, NONE, NONE,
    0, 1, 2, 3, 4, 5, 6, 7, 8, 9, NONE, NONE, NONE, NONE, NONE, NONE, NONE, 10, 11, 12, 13, 14, 15,
    NONE, NONE, NONE, NONE, NONE, NONE, NONE, NONE, NONE, NONE, NONE, NONE, NONE, NONE, NONE, NONE,
    NONE, NONE, NONE, NONE, NONE, NONE, NONE, NONE, NONE, NONE, NONE, NONE, NONE, NONE, NONE, NONE,
    NONE, NONE, NONE, NONE, NONE, NONE, NONE, NONE, NONE, NONE, NONE, NONE, NONE, NONE, NONE, NONE,
    NONE, NONE, NONE, NONE, NONE, NONE, NONE, NONE, NONE, NONE, NONE, NONE, NONE, NONE, NONE, NONE,
    NONE, NONE, NONE, NONE, NONE, NONE, NONE, NONE, NONE, NONE, NONE, NONE, NONE, NONE, NONE, NONE,
    NONE, NONE, NONE, NONE, NONE, NONE, NONE, NONE, NONE, NONE, NONE, NONE, NONE, NONE, NONE, NONE,
    NONE, NONE, NONE, NONE, NONE, NONE, NONE, NONE, NONE, NONE, NONE, NONE, NONE, NONE, NONE, NONE,
    NONE, NONE, NONE, NONE, NONE, NONE, NONE, NONE, NONE, NONE, NONE, NONE, NONE, NONE, NONE, NONE,
    NONE, NONE, NONE, NONE, NONE, NONE, NONE, NONE, NONE, NONE, NONE, NONE, NONE, NONE, NONE, NONE,
    NONE, NONE, NONE, NONE, NONE, NONE, NONE, NONE, NONE, NONE, NONE, NONE, NONE, NONE, NONE, NONE,
    NONE, NONE, NONE, NONE, NONE, NONE, NONE, NONE, NONE, NONE, NONE, NONE, NONE, NONE, NONE, NONE,
    NONE, NONE, NONE, NONE, NONE, NONE, NONE, NONE, NONE,
];

fn digit_value(b: u8) -> u64
    ensures { result ≡ value_of b }
{
    VALUES[b as usize]
}

// The value of eight digits, and 2^32 or more where one of the bytes is none.
fn eight_digits(s: &[u8]) -> u64
    requires { length s.now ≡ 8 }
    ensures { digits_value 0 s.now ≡ digits_of_sum result }
{
    let mut v = 0;
    for &b in s {
        v = v * 16 + digit_value(b);
    }
    v
}

// The line that starts at a byte of the text.
pub fn read_line(s: &[u8], at: usize) -> Option<u32>
    requires { at ≤ length s.now }
    ensures { result ≡ line_of s.now at }
{
    if s.len() - at < 9 || s[at + 8] != b'\n' {
        return None;
    }
    u32::try_from(eight_digits(&s[at..at + 8])).ok()
}

// The value of a byte as one of the digits A-F, and 16 where it is none: its distance from A, counted round.
fn letter_of(b: u8) -> u8
    ensures { result ≡ letter_of b }
{
    let from = b.wrapping_sub(b'A');
    if from < 6 { from + 10 } else { 16 }
}

// The value of a byte as a digit, and 16 where it is none. Each test chooses between two numbers, so that nothing is to be predicted.
fn digit_of(b: u8) -> u8
    ensures { result ≡ digit_of b }
{
    let letter = letter_of(b);
    let from = b.wrapping_sub(b'0');
    if from < 10 { from } else { letter }
}

// The values of the first bytes of a text as digits, as many as out has. The reply is how many of them are none.
pub fn digit_list(s: &[u8], out: &mut [u8]) -> u8
    requires in_text { length out.old ≤ length s.now }
    requires counted { length out.old ≤ 255 }
    ensures count { result ≡ others (take (length out.old) s.now) }
    ensures contents { out.new ≡ values_of (take (length out.old) s.now) }
    ensures digits { result ≡ 0 → DigitValues out.new }
{
    let mut count = 0;
    for k in 0..out.len() {
        let d = digit_of(s[k]);
        out[k] = d;
        count += d / 16;
    }
    count
}

// The number that up to 16 values of digits make.
pub fn join(d: &[u8]) -> u64
    requires most_digits { length d.now ≤ 16 }
    requires values { DigitValues d.now }
    ensures number { result ≡ joined 0 d.now }
    ensures within { result < too_wide (length d.now) }
{
    let mut v = 0;
    for &x in d {
        v = v * 16 + u64::from(x);
    }
    v
}

// The digit of each value below 16.
static DIGITS: [u8; 16] = *b"0123456789ABCDEF";

// The digit of a value below 16.
fn digit_byte(v: u8) -> u8
    requires { v < 16 }
    ensures { result ≡ byte_of v }
{
    DIGITS[v as usize]
}

// The low digits of a value, as many as out has bytes.
pub fn put(out: &mut [u8], value: u64)
    ensures { out.new ≡ digits (length out.old) value }
{
    let mut v = value;
    for k in (0..out.len()).rev() {
        out[k] = digit_byte((v % 16) as u8);
        v /= 16;
    }
}

// The line of a word.
pub fn word_line(w: u32) -> [u8; 9]
    ensures { result ≡ word_line w }
{
    let mut line = [b'\n'; 9];
    put(&mut line[..8], u64::from(w));
    line
}
