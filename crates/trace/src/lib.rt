// The functions that C programs call, by way of crate trace_c: the planner's entry, texts, guard lists and verdicts. Equality and the
// serial order are in crate traceorder: apart from these, so that the judging pass is compiled into one loop here.

#![tactic(auto)]

ghost use Rattle.std.specs.Prelude.{◌≡◌, length};
ghost use Rattle.text.specs.Text.{read_reply, read_words};
ghost use Rattle.guards.specs.Guards.{guards_read};
ghost use Rattle.guards.specs.Judgement.{Declared};
ghost use Rattle.verdict.specs.Verdict.{verdict_under, inferred_reply};
ghost use Rattle.trace.specs.Trace.{read_answer, guards_answer, kind_answer, line_after, sets_after};
ghost use Rattle.answer.specs.Answer.{text_judged};

use frame::{Refusal, VARIABLES};
use guards::{Judgement, UNPROTECTED};

// The bytes of a verdict line, and the kind where a line buffer has fewer.
const LINE: usize = line::LINE;

const SHORT: u8 = 0x80 + Refusal::LineBuffer as u8;

// The planner's entry: recording text in, verdict line out, guards inferred.
pub fn trace_check(text: &[u8], line: &mut [u8]) -> u8
    ensures kind { result ≡ kind_answer (text_judged text.now).reply (length line.old) }
    ensures contents { line.new ≡ line_after (text_judged text.now).reply (text_judged text.now).frames line.old }
{
    if line.len() < LINE {
        return SHORT;
    }
    let judged = answer::judge_text(text);
    answer::answer(line, judged.reply, judged.frames)
}

// A recording's text read into words.
pub fn trace_read(text: &[u8], words: &mut [u32]) -> u64
    ensures reply { result ≡ read_answer (read_reply text.now (length words.old)) }
    ensures contents { words.new ≡ read_words text.now words.old }
{
    reply::answer(text::read_recording(text, words))
}

// A guard list checked.
pub fn trace_guards(list: &[u8]) -> u64
    ensures { result ≡ guards_answer (guards_read list.now).reply }
{
    let mut table = [UNPROTECTED; VARIABLES];
    reply::answer(guards::read_guards(list, &mut table))
}

// The verdict with declared guards.
pub fn trace_declared(list: &[u8], words: &[u32], line: &mut [u8]) -> u8
    ensures kind { result ≡ kind_answer (verdict_under Declared list.now words.now) (length line.old) }
    ensures contents { line.new ≡ line_after (verdict_under Declared list.now words.now) (length words.now) line.old }
{
    if line.len() < LINE {
        return SHORT;
    }
    let declared = verdict::judge(Judgement::Declared(list), words);
    answer::answer(line, declared, (words.len() % 0x1_0000_0000) as u32)
}

// The verdict with inferred guards, and the candidate sets.
pub fn trace_inferred(words: &[u32], sets: &mut [u64], line: &mut [u8]) -> u8
    ensures kind { result ≡ kind_answer (inferred_reply words.now (length sets.old)) (length line.old) }
    ensures sets { sets.new ≡ sets_after words.now sets.old (length line.old) }
    ensures contents { line.new ≡ line_after (inferred_reply words.now (length sets.old)) (length words.now) line.old }
{
    let room = line.len();
    if room < LINE {
        return SHORT;
    }
    let inferred = verdict::inferred(words, sets);
    answer::answer(line, inferred, (words.len() % 0x1_0000_0000) as u32)
}
