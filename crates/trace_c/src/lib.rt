// Functions that C programs call: the planner's entry, texts, guard lists and verdicts. Each hands its arguments to the function of the same name
// in crate trace, and promises what that one does.

#![tactic(auto)]

ghost use Rattle.std.specs.Prelude.{◌≡◌, length};
ghost use Rattle.text.specs.Text.{read_reply, read_words};
ghost use Rattle.guards.specs.Guards.{guards_read};
ghost use Rattle.guards.specs.Judgement.{Declared};
ghost use Rattle.verdict.specs.Verdict.{verdict_under, inferred_reply};
ghost use Rattle.trace.specs.Trace.{read_answer, guards_answer, kind_answer, line_after, sets_after};
ghost use Rattle.answer.specs.Answer.{text_judged};

// The planner's entry: recording text in, verdict line out, guards inferred.
#[unsafe(no_mangle)]
pub extern "C" fn trace_check(text: &[u8], line: &mut [u8]) -> u8
    ensures kind { result ≡ kind_answer (text_judged text.now).reply (length line.old) }
    ensures contents { line.new ≡ line_after (text_judged text.now).reply (text_judged text.now).frames line.old }
{
    trace::trace_check(text, line)
}

// A recording's text read into words.
#[unsafe(no_mangle)]
pub extern "C" fn trace_read(text: &[u8], words: &mut [u32]) -> u64
    ensures reply { result ≡ read_answer (read_reply text.now (length words.old)) }
    ensures contents { words.new ≡ read_words text.now words.old }
{
    trace::trace_read(text, words)
}

// A guard list checked.
#[unsafe(no_mangle)]
pub extern "C" fn trace_guards(list: &[u8]) -> u64
    ensures { result ≡ guards_answer (guards_read list.now).reply }
{
    trace::trace_guards(list)
}

// The verdict with declared guards.
#[unsafe(no_mangle)]
pub extern "C" fn trace_declared(list: &[u8], words: &[u32], line: &mut [u8]) -> u8
    ensures kind { result ≡ kind_answer (verdict_under Declared list.now words.now) (length line.old) }
    ensures contents { line.new ≡ line_after (verdict_under Declared list.now words.now) (length words.now) line.old }
{
    trace::trace_declared(list, words, line)
}

// The verdict with inferred guards, and the candidate sets.
#[unsafe(no_mangle)]
pub extern "C" fn trace_inferred(words: &[u32], sets: &mut [u64], line: &mut [u8]) -> u8
    ensures kind { result ≡ kind_answer (inferred_reply words.now (length sets.old)) (length line.old) }
    ensures sets { sets.new ≡ sets_after words.now sets.old (length line.old) }
    ensures contents { line.new ≡ line_after (inferred_reply words.now (length sets.old)) (length words.now) line.old }
{
    trace::trace_inferred(words, sets, line)
}
