// A verdict line in words, written into a lent buffer as far as there is room; the reply is the number of bytes written.

#![tactic(auto)]

ghost use Rattle.std.specs.Prelude.{◌≡◌, length};
ghost use Rattle.frame.specs.Refusal.{refusal_number};
ghost use Rattle.kept.specs.Kept.{kept_reply};
ghost use Rattle.output.specs.Output.{Appended, behind, written};
ghost use Rattle.linereport.specs.LineReport.{source_by, source_of, other_text, kept_text, line_report};

use explain::explain;
use frame::Refusal;
use line::Fields;
use output::Text;
use phrase::Source;
use refusaltext::explain_refusal;
use reply::Reply;

// What a refusal speaks of.
fn source_by(reason: Refusal) -> Source
    ensures { result ≡ source_by (refusal_number reason) }
{
    match reason {
        Refusal::Line => Source::Text,
        Refusal::GuardRange | Refusal::GuardRepeated => Source::GuardList,
        _ => Source::Recording,
    }
}

// What a reply speaks of.
fn source_of(reply: Reply) -> Source
    ensures { result ≡ source_of reply }
{
    match reply {
        Ok(_) => Source::Recording,
        Err(refused) => source_by(refused.reason),
    }
}

// A number of a refusal that this check does not give, and its place.
pub fn put_other(out: &mut Text<'_>, number: u64, place: u64)
    ensures { Appended out.old out.new (other_text number place) }
{
    out.put_text(b"refused: number ");
    out.put_decimal(number);
    out.put_text(b", which this check does not give; its place is ");
    out.put_decimal(place);
    out.put_text(b".\n");
}

// A line that is read, in words; words are those of its recording.
fn put_kept(out: &mut Text<'_>, fields: Fields, words: &[u32])
    ensures { Appended out.old out.new (kept_text (kept_reply fields) words.now fields.frame) }
{
    match kept::reply_of(fields) {
        Ok(reply) => explain(out, source_of(reply), words, reply, fields.frame as u32),
        Err(number) => put_other(out, number as u64, fields.frame as u64),
    }
}

// What should be a verdict line, in words.
pub fn line_report(line: &[u8], words: &[u32], out: &mut [u8]) -> usize
    ensures place { result ≡ behind (length out.old) 0 (line_report line.now words.now) }
    ensures contents { out.new ≡ written out.old 0 (line_report line.now words.now) }
{
    let mut text = Text::over(out);
    match fields::read_fields(line) {
        Ok(fields) => put_kept(&mut text, fields, words),
        Err(refused) => explain_refusal(&mut text, Source::Text, words, refused),
    }
    text.len()
}
