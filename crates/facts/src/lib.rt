// What is known of a place of a recording, and of a violation, for sentences to speak of.

#![tactic(auto)]

ghost use Rattle.std.specs.Prelude.{◌≡◌, get_or};
ghost use Rattle.frame.specs.Frame.{decode_word};
ghost use Rattle.facts.specs.Facts.{thread_in, place_facts, violation_facts};

use frame::{Frame, Refusal, Thread};
use phrase::Source;
use reply::Violation;
use sentence::Facts;

// The frame at a place. Outside the recording it is that of the word 0, which is no frame.
fn frame_at(words: &[u32], place: u32) -> Result<Frame, Refusal>
    ensures { result ≡ decode_word (get_or words.now place 0) }
{
    Frame::try_from(words.get(place as usize).copied().unwrap_or(0))
}

fn thread_of(decoded: Result<Frame, Refusal>) -> Thread
    ensures { result ≡ thread_in decoded }
{
    match decoded {
        Ok(frame) => frame.thread,
        Err(_) => Thread(0),
    }
}

// What is known of a place of a recording alone.
pub fn place_facts(source: Source, words: &[u32], place: u32) -> Facts
    ensures { result ≡ place_facts source words.now place }
{
    let frame = frame_at(words, place);
    Facts {
        source,
        place,
        frame,
        thread: thread_of(frame),
        begin: 0,
        commit: 0,
        by: Err(Refusal::Operation),
        locks: 0,
    }
}

// What is known of a violation.
pub fn violation_facts(source: Source, words: &[u32], violation: Violation) -> Facts
    ensures { result ≡ violation_facts source words.now violation }
{
    let commit = violation.commit.unwrap_or(0);
    Facts {
        source,
        place: violation.frame,
        frame: frame_at(words, violation.frame),
        thread: violation.thread,
        begin: violation.begin.unwrap_or(0),
        commit,
        by: frame_at(words, commit),
        locks: violation.locks,
    }
}
