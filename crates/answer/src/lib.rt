// What the functions for C programs share: a verdict line with its kind, the verdict on a text.

#![tactic(auto)]

ghost use Rattle.std.specs.Prelude.{◌≡◌, ◌++◌, ◌≤◌, length, drop};
ghost use Rattle.line.specs.Line.{line_length, verdict_line};
ghost use Rattle.answer.specs.Answer.{reply_kind, text_judged};

use frame::MOST;
use guards::Judgement;
use reply::Reply;

// The reply to a text, and its number of frames where it is read.
#[derive(Clone, Copy)]
pub struct TextJudged {
    pub reply: Reply,
    pub frames: u32,
}

// The verdict line of a reply, at the front of a buffer, and its kind.
pub fn answer(line: &mut [u8], reply: Reply, frames: u32) -> u8
    requires { line_length ≤ length line.old }
    ensures kind { result ≡ reply_kind reply }
    ensures contents { line.new ≡ verdict_line reply frames ++ drop line_length line.old }
{
    let fields = line::reply_fields(reply, frames);
    line::put_line(line, &line::fields_line(fields));
    fields.kind
}

// The verdict on a text, guards inferred.
pub fn judge_text(text: &[u8]) -> TextJudged
    ensures { result ≡ text_judged text.now }
{
    let mut words = [0; MOST];
    match text::read_into(text, &mut words) {
        Ok(frames) => TextJudged {
            reply: verdict::judge(Judgement::Inferred, &words[..frames as usize]),
            frames,
        },
        Err(refused) => TextJudged {
            reply: Err(refused),
            frames: 0,
        },
    }
}
