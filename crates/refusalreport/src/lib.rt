// A call's refusal in words, written into a lent buffer as far as there is room; the reply is the number of bytes written.

#![tactic(auto)]

ghost use Rattle.std.specs.Prelude.{◌≡◌, length};
ghost use Rattle.output.specs.Output.{Appended, behind, written};
ghost use Rattle.refusalreport.specs.RefusalReport.{numbered_text, refusal_report};

use frame::Refusal;
use output::Text;
use phrase::Source;

// The refusal of a number at a place.
fn say_numbered(
    out: &mut Text<'_>,
    number: u8,
    place: u32,
    source: Source,
    text: &[u8],
    words: &[u32],
)
    ensures { Appended out.old out.new (numbered_text number place source text.now words.now) }
{
    match Refusal::try_from(number) {
        Ok(reason) => linefault::explain_refused(out, source, text, words, reason.at(place)),
        Err(_) if number == 0 => {}
        Err(_) => linereport::put_other(out, number as u64, place as u64),
    }
}

// The refusal that a call replies, of what a number names; nothing where the reply is none.
pub fn refusal_report(reply: u64, source: u32, text: &[u8], words: &[u32], out: &mut [u8]) -> usize
    ensures place { result ≡ behind (length out.old) 0 (refusal_report reply source text.now words.now) }
    ensures contents { out.new ≡ written out.old 0 (refusal_report reply source text.now words.now) }
{
    let number = (reply / 0x1_0000_0000 % 0x100) as u8;
    let place = (reply % 0x1_0000_0000) as u32;
    let mut report = Text::over(out);
    say_numbered(
        &mut report,
        number,
        place,
        Source::from(source),
        text,
        words,
    );
    report.len()
}
