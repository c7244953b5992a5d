// Sentences with slots in them.

#![tactic(auto)]

ghost use Rattle.std.specs.Prelude.{◌≡◌};
ghost use Rattle.output.specs.Output.{Appended};
ghost use Rattle.sentence.specs.Sentence.{piece, known, filled};

use frame::{Frame, Refusal, Thread};
use output::Text;
use phrase::Source;

// What a sentence can speak of: a place, the frame there, a thread, the block's begin and commit, the frame that committed, and locks.
#[derive(Clone, Copy)]
pub struct Facts {
    pub source: Source,
    pub place: u32,
    pub frame: Result<Frame, Refusal>,
    pub thread: Thread,
    pub begin: u32,
    pub commit: u32,
    pub by: Result<Frame, Refusal>,
    pub locks: u64,
}

// One byte of a sentence, or what it stands for.
#[tactic(auto, unfolding(crate::specs::Sentence::piece))]
fn put_piece(out: &mut Text<'_>, byte: u8, facts: Facts)
    ensures { Appended out.old out.new (piece facts byte) }
{
    match byte {
        b'@' => phrase::put_line(out, facts.place),
        b'<' => phrase::put_line(out, facts.begin),
        b'>' => phrase::put_line(out, facts.commit),
        b'%' => phrase::put_source(out, facts.source),
        b'*' => phrase::put_frame(out, facts.frame),
        b'^' => phrase::put_frame(out, facts.by),
        b'&' => out.put_decimal(facts.thread.0 as u64),
        b'$' => out.put_decimal(phrase::variable_of(facts.frame).0 as u64),
        b'~' => out.put_locks(facts.locks),
        b'#' => out.put_decimal(facts.place as u64),
        _ => out.put_byte(byte),
    }
}

// Whether a frame is at hand.
pub fn known(decoded: Result<Frame, Refusal>) -> bool
    ensures { result ≡ known decoded }
{
    decoded.is_ok()
}

// A sentence with its slots filled in.
pub fn say(out: &mut Text<'_>, sentence: &[u8], facts: Facts)
    ensures { Appended out.old out.new (filled facts sentence.now) }
{
    for byte in sentence {
        put_piece(out, *byte, facts);
    }
}
