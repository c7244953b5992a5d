// The text of a recording: its lines, and the words that they give.

#![tactic(auto)]

ghost use Rattle.std.specs.Prelude.{◌≡◌, ◌++◌, ◌≤◌, ◌<◌, length, drop};
ghost use Rattle.frame.specs.Limits.{most_frames};
ghost use Rattle.text.specs.Text.{line_at, scan_from, scanned, reached, words_to, read_reply, read_words};

use digits::read_line;
use frame::{MOST, MOST_PLACE, Refusal, Refused};

// The most bytes of a text: a line has nine.
pub const MOST_BYTES: usize = 9 * MOST;

// The word of line i, or none where the text ends before it.
fn line_at(s: &[u8], i: usize) -> Result<Option<u32>, Refused>
    requires { i < most_frames }
    ensures { result ≡ line_at s.now i }
{
    if s.len() <= 9 * i {
        return Ok(None);
    }
    match read_line(s, 9 * i) {
        Some(w) => Ok(Some(w)),
        None => Err(Refusal::Line.at(i as u32)),
    }
}

// What is answered behind the last line that a text may have: no byte may stand there.
fn full(s: &[u8]) -> Result<u32, Refused>
    ensures { result ≡ scan_from 0 s.now most_frames }
{
    if s.len() <= MOST_BYTES {
        Ok(MOST_PLACE)
    } else {
        Err(Refusal::TooLong.at(MOST_PLACE))
    }
}

// The number of lines, or the first refusal among them.
fn scan(s: &[u8]) -> Result<u32, Refused>
    ensures { result ≡ scanned s.now }
{
    for i in 0..MOST {
        let Some(_) = line_at(s, i)? else {
            return Ok(i as u32);
        };
    }
    full(s)
}

// The lines of a text, each word written as it is read: where a line is refused, the words before it are written.
pub fn read_into(s: &[u8], words: &mut [u32]) -> Result<u32, Refused>
    requires { reached (scanned s.now) ≤ length words.old }
    ensures reply { result ≡ scanned s.now }
    ensures contents { words.new ≡ words_to s.now (reached result) ++ drop (reached result) words.old }
{
    for i in 0..MOST {
        let Some(w) = line_at(s, i)? else {
            return Ok(i as u32);
        };
        words[i] = w;
    }
    full(s)
}

// The lines of a text, all of them checked before a word is written: where the text is refused, no word changes.
pub fn read_recording(text: &[u8], words: &mut [u32]) -> Result<u32, Refused>
    ensures reply { result ≡ read_reply text.now (length words.old) }
    ensures contents { words.new ≡ read_words text.now words.old }
{
    let n = scan(text)?;
    if words.len() < n as usize {
        return Err(Refusal::WordBuffer.at(n));
    }
    read_into(text, words)
}
