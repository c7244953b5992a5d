// The functions that C programs call, by way of crate tracesay_c: answers, refusals and verdict lines in words, and the names of kinds and
// refusals. Each writes into a lent buffer as far as there is room, and replies the number of bytes of the whole.

#![tactic(auto)]

ghost use Rattle.std.specs.Prelude.{◌≡◌, [], length};
ghost use Rattle.output.specs.Output.{written};
ghost use Rattle.names.specs.Names.{kind_name, refusal_name};
ghost use Rattle.linereport.specs.LineReport.{line_report};
ghost use Rattle.refusalreport.specs.RefusalReport.{refusal_report};

use output::Text;

// The most bytes of a text.
const TEXT: usize = 4096;

// The answer that a verdict line tells, with the words of its recording.
pub fn trace_say_verdict(line: &[u8], words: &[u32], out: &mut [u8]) -> usize
    ensures length { result ≡ length (line_report line.now words.now) }
    ensures contents { out.new ≡ written out.old 0 (line_report line.now words.now) }
{
    let mut whole = [0u8; TEXT];
    let length = linereport::line_report(line, words, &mut whole);
    let mut text = Text::over(out);
    text.put_text(&whole[..length]);
    length
}

// The refusal that a call replied.
pub fn trace_say_refusal(
    reply: u64,
    source: u32,
    text: &[u8],
    words: &[u32],
    out: &mut [u8],
) -> usize
    ensures length { result ≡ length (refusal_report reply source text.now words.now) }
    ensures contents { out.new ≡ written out.old 0 (refusal_report reply source text.now words.now) }
{
    let mut report = [0u8; TEXT];
    let length = refusalreport::refusal_report(reply, source, text, words, &mut report);
    let mut said = Text::over(out);
    said.put_text(&report[..length]);
    length
}

// A kept verdict line.
pub fn trace_say_line(line: &[u8], out: &mut [u8]) -> usize
    ensures length { result ≡ length (line_report line.now []) }
    ensures contents { out.new ≡ written out.old 0 (line_report line.now []) }
{
    trace_say_verdict(line, &[], out)
}

// The name of a kind.
pub fn trace_say_kind(kind: u8, out: &mut [u8]) -> usize
    ensures length { result ≡ length (kind_name kind) }
    ensures contents { out.new ≡ written out.old 0 (kind_name kind) }
{
    names::put_kind_name(out, kind)
}

// The name of a refusal.
pub fn trace_say_refusal_name(number: u8, out: &mut [u8]) -> usize
    ensures length { result ≡ length (refusal_name number) }
    ensures contents { out.new ≡ written out.old 0 (refusal_name number) }
{
    names::put_refusal_name(out, number)
}
