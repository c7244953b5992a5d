// A recording written as text: a line for each frame, into a lent text from a place on.

#![tactic(auto)]

ghost use Rattle.std.specs.Prelude.{◌≡◌, ◌*◌, ◌≤◌, ◌++◌, length, drop};
ghost use Rattle.digits.specs.Digits.{lines_of};
ghost use Rattle.frame.specs.Limits.{most_frames};
ghost use Rattle.writer.specs.Writer.{room_reply, write_reply, text_after};

use digits::word_line;
use frame::{Refusal, Refused};

// Whether a text of so many bytes has room from a place on for the lines of so many frames.
fn room(frames: usize, size: usize, place: usize) -> Result<u32, Refused>
    requires { frames ≤ most_frames }
    ensures { result ≡ room_reply frames size place }
{
    let bytes = 9 * frames as u32;
    if size < place || size - place < bytes as usize {
        return Err(Refusal::TextBuffer.at(bytes));
    }
    Ok(bytes)
}

// The lines of words, at the front of a text. The rest is left.
fn write_lines(words: &[u32], text: &mut [u8])
    requires { 9 * length words.now ≤ length text.old }
    ensures { text.new ≡ lines_of words.now ++ drop (9 * length words.now) text.old }
{
    for (i, &w) in words.iter().enumerate() {
        text[9 * i..9 * i + 9].copy_from_slice(&word_line(w));
    }
}

// A sound recording as text, from a place on: all checks are made before a byte is written.
pub fn write_recording(words: &[u32], text: &mut [u8], place: usize) -> Result<u32, Refused>
    ensures reply { result ≡ write_reply words.now (length text.old) place }
    ensures contents { text.new ≡ text_after (write_reply words.now (length text.old) place) words.now text.old place }
{
    quick::check(words)?;
    let bytes = room(words.len(), text.len(), place)?;
    write_lines(words, &mut text[place..]);
    Ok(bytes)
}
