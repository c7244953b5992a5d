// Functions that C programs call: answers, refusals and verdict lines in words. Each hands its arguments to the function of the same name in
// crate tracesay, and promises what that one does.

#![tactic(auto)]

ghost use Rattle.std.specs.Prelude.{◌≡◌, [], length};
ghost use Rattle.output.specs.Output.{written};
ghost use Rattle.names.specs.Names.{kind_name, refusal_name};
ghost use Rattle.linereport.specs.LineReport.{line_report};
ghost use Rattle.refusalreport.specs.RefusalReport.{refusal_report};

// The answer that a verdict line tells, with the words of its recording.
#[unsafe(no_mangle)]
pub extern "C" fn trace_say_verdict(line: &[u8], words: &[u32], out: &mut [u8]) -> usize
    ensures length { result ≡ length (line_report line.now words.now) }
    ensures contents { out.new ≡ written out.old 0 (line_report line.now words.now) }
{
    tracesay::trace_say_verdict(line, words, out)
}

// The refusal that a call replied.
#[unsafe(no_mangle)]
pub extern "C" fn trace_say_refusal(
    reply: u64,
    source: u32,
    text: &[u8],
    words: &[u32],
    out: &mut [u8],
) -> usize
    ensures length { result ≡ length (refusal_report reply source text.now words.now) }
    ensures contents { out.new ≡ written out.old 0 (refusal_report reply source text.now words.now) }
{
    tracesay::trace_say_refusal(reply, source, text, words, out)
}

// A kept verdict line.
#[unsafe(no_mangle)]
pub extern "C" fn trace_say_line(line: &[u8], out: &mut [u8]) -> usize
    ensures length { result ≡ length (line_report line.now []) }
    ensures contents { out.new ≡ written out.old 0 (line_report line.now []) }
{
    tracesay::trace_say_line(line, out)
}

// The name of a kind.
#[unsafe(no_mangle)]
pub extern "C" fn trace_say_kind(kind: u8, out: &mut [u8]) -> usize
    ensures length { result ≡ length (kind_name kind) }
    ensures contents { out.new ≡ written out.old 0 (kind_name kind) }
{
    tracesay::trace_say_kind(kind, out)
}

// The name of a refusal.
#[unsafe(no_mangle)]
pub extern "C" fn trace_say_refusal_name(number: u8, out: &mut [u8]) -> usize
    ensures length { result ≡ length (refusal_name number) }
    ensures contents { out.new ≡ written out.old 0 (refusal_name number) }
{
    tracesay::trace_say_refusal_name(number, out)
}
