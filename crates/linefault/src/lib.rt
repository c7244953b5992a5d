// What is wrong with a line that is refused by 1, in words: the first byte that is wrong, its column, and what to do.

#![tactic(auto)]

ghost use Rattle.std.specs.Prelude.{◌≡◌, ◌*◌, ◌≤◌, drop};
ghost use Rattle.digits.specs.Digits.{digits};
ghost use Rattle.output.specs.Output.{Appended, bytes};
ghost use Rattle.linefault.specs.LineFault.{fault_sentence, column_text, line_fault_text, refused_text};

use fault::Fault;
use frame::{Refusal, Refused};
use output::Text;
use phrase::Source;

// What it is, and what to do.
fn fault_sentence(fault: Fault) -> &'static [u8]
    ensures { result.now ≡ bytes (fault_sentence fault) }
{
    match fault {
        Fault::Mark => b"a byte-order mark; save the file without it.\n",
        Fault::BlankLine => b"an LF, so the line is blank; drop it.\n",
        Fault::TooFew => b"an LF, so there are too few digits; write eight.\n",
        Fault::Unfinished => b"so there are too few digits and no LF; write eight and an LF.\n",
        Fault::NoLinefeed => b"so the last line has no LF; add it.\n",
        Fault::Return => b"a CR; end each line with LF alone.\n",
        Fault::Blank => b"a blank or a tab; write none.\n",
        Fault::TooMany => b"a digit too many; write eight.\n",
        Fault::NoEnd => b"not the LF; end the line behind eight digits.\n",
        Fault::LowerCase => b"a lower-case letter; write A-F.\n",
        Fault::NoDigit => b"not a digit; write 0-9 A-F.\n",
    }
}

// A byte as two digits.
fn put_hexadecimal(out: &mut Text<'_>, byte: u8)
    ensures { Appended out.old out.new (digits 2 byte) }
{
    let mut two = [0u8; 2];
    digits::put(&mut two, byte as u64);
    out.put_text(&two);
}

// The column behind c digits, and the byte there.
fn put_column(out: &mut Text<'_>, line: &[u8], c: usize)
    requires { c ≤ 8 }
    ensures { Appended out.old out.new (column_text line.now c) }
{
    out.put_text(b"column ");
    out.put_decimal(c as u64 + 1);
    match line.get(c) {
        Some(byte) => {
            out.put_text(b" has byte ");
            put_hexadecimal(out, *byte);
            out.put_text(b", ");
        }
        None => out.put_text(b" is behind the end of the file, "),
    }
}

// A text from its line i on; nothing where it has no such line.
fn line_from(text: &[u8], i: u32) -> &[u8]
    ensures { result.now ≡ drop (9 * i) text.now }
{
    text.get(9 * i as usize..).unwrap_or(&[])
}

// What is wrong with the line at a place of a text.
fn say_line(out: &mut Text<'_>, source: Source, text: &[u8], place: u32)
    ensures { Appended out.old out.new (line_fault_text source text.now place) }
{
    sentence::say(
        out,
        b"refused: number 1, @ of % is not eight digits 0-9 A-F and one LF: ",
        facts::place_facts(source, &[], place),
    );
    let line = line_from(text, place);
    let c = fault::leading_digits(line);
    put_column(out, line, c);
    out.put_text(fault_sentence(fault::fault_of(line, place, c)));
}

// A refusal in words, with what is at hand of what is refused: its text, and the words of the recording.
pub fn explain_refused(
    out: &mut Text<'_>,
    source: Source,
    text: &[u8],
    words: &[u32],
    refused: Refused,
)
    ensures { Appended out.old out.new (refused_text source text.now words.now refused) }
{
    if refused.reason == Refusal::Line && 9 * (refused.place as usize) < text.len() {
        say_line(out, source, text, refused.place);
    } else {
        refusaltext::explain_refusal(out, source, words, refused);
    }
}
