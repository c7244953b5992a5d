// Answers in words.

#![tactic(auto)]

ghost use Rattle.std.specs.Prelude.{◌≡◌};
ghost use Rattle.output.specs.Output.{Appended, bytes};
ghost use Rattle.explain.specs.Explain.{reducible_sentence, explanation};

use output::Text;
use phrase::Source;
use reply::Reply;

// A recording of so many frames in which none goes wrong.
fn reducible_sentence(frames: u32) -> &'static [u8]
    ensures { result.now ≡ bytes (reducible_sentence frames) }
{
    if frames == 0 {
        b"reducible: there is nothing in %; frames: #.\n"
    } else {
        b"reducible: no frame goes wrong; frames: #.\n"
    }
}

// The answer to a recording of so many frames, in words.
pub fn explain(out: &mut Text<'_>, source: Source, words: &[u32], reply: Reply, frames: u32)
    ensures { Appended out.old out.new (explanation source words.now reply frames) }
{
    match reply {
        Ok(Ok(())) => {
            let facts = facts::place_facts(source, words, frames);
            sentence::say(out, reducible_sentence(frames), facts);
        }
        Ok(Err(violation)) => {
            let facts = facts::violation_facts(source, words, violation);
            violationtext::say_violation(out, facts, violation);
        }
        Err(refused) => refusaltext::explain_refusal(out, source, words, refused),
    }
}
