// What sentences name: the recording or list spoken of, a line and its place, what a frame does.

#![tactic(auto)]

ghost use Rattle.std.specs.Prelude.{◌≡◌, ◌++◌};
ghost use Rattle.output.specs.Output.{Appended, decimal};
ghost use Rattle.phrase.specs.Phrase.{source_named, source_text, line_text, action_text, decoded_text, variable_in};

use frame::{Action, Frame, Refusal, Variable};
use output::Text;

// What is spoken of.
#[derive(Clone, Copy)]
pub enum Source {
    Recording,
    GuardList,
    Left,
    Right,
    Text,
}

// What a number names, as C programs give it.
impl From<u32> for Source {
    ghost from_gives = { λ number source. source ≡ source_named number };

    fn from(number: u32) -> Source {
        match number {
            0 => Source::Recording,
            1 => Source::GuardList,
            2 => Source::Left,
            3 => Source::Right,
            _ => Source::Text,
        }
    }
}

#[tactic(auto, unfolding(crate::specs::Phrase::source_text, output::specs::Output::bytes))]
pub fn put_source(out: &mut Text<'_>, source: Source)
    ensures { Appended out.old out.new (source_text source) }
{
    match source {
        Source::Recording => out.put_text(b"the recording"),
        Source::GuardList => out.put_text(b"the guard list"),
        Source::Left => out.put_text(b"the left recording"),
        Source::Right => out.put_text(b"the right recording"),
        Source::Text => out.put_text(b"the text"),
    }
}

// Some words and a number.
fn put_named(out: &mut Text<'_>, words: &[u8], number: u64)
    ensures { Appended out.old out.new (words.now ++ decimal number) }
{
    out.put_text(words);
    out.put_decimal(number);
}

// A place as a line, counted from 1, and as a place, counted from 0.
pub fn put_line(out: &mut Text<'_>, place: u32)
    ensures { Appended out.old out.new (line_text place) }
{
    let place = place as u64;
    put_named(out, b"line ", place + 1);
    put_named(out, b" [", place);
    out.put_byte(b']');
}

#[tactic(auto, unfolding(crate::specs::Phrase::action_text, output::specs::Output::bytes))]
fn put_action(out: &mut Text<'_>, action: Action)
    ensures { Appended out.old out.new (action_text action) }
{
    match action {
        Action::Acquire(lock) => put_named(out, b"acquire of lock ", lock.0 as u64),
        Action::Release(lock) => put_named(out, b"release of lock ", lock.0 as u64),
        Action::Read(variable) => put_named(out, b"read of variable ", variable.0 as u64),
        Action::Write(variable) => put_named(out, b"write of variable ", variable.0 as u64),
        Action::Begin => out.put_text(b"begin"),
        Action::End => out.put_text(b"end"),
    }
}

// What a frame does.
#[tactic(auto, unfolding(crate::specs::Phrase::decoded_text, output::specs::Output::bytes))]
pub fn put_frame(out: &mut Text<'_>, decoded: Result<Frame, Refusal>)
    ensures { Appended out.old out.new (decoded_text decoded) }
{
    match decoded {
        Ok(frame) => put_action(out, frame.action),
        Err(_) => out.put_text(b"no frame"),
    }
}

// The variable that a frame reads or writes.
pub fn variable_of(decoded: Result<Frame, Refusal>) -> Variable
    ensures { result ≡ variable_in decoded }
{
    match decoded {
        Ok(
            Frame {
                action: Action::Read(variable) | Action::Write(variable),
                ..
            },
        ) => variable,
        _ => Variable(0),
    }
}
