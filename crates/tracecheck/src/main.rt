// Recording text from standard input, its verdict line to standard output.
// No more is read than the most bytes of a text and one more. Where a byte stands after them the text is refused by 2, whatever follows, and
// any line that fails before decides earlier still. Where a read fails there is no text, and no line is written.

#![tactic(auto)]

ghost use Rattle.std.specs.Prelude.{◌≤◌, length, IfOk};

use std::io::{self, Read, Write};

// Reads until text is full or the input ends: how many bytes it has, or why a read failed.
fn read_text<R: Read>(input: &mut R, text: &mut [u8]) -> io::Result<usize>
    ensures { IfOk result (λ n. n ≤ length text.old) }
{
    let mut done: usize = 0;
    while done < text.len() {
        let n = input.read(&mut text[done..])?;
        if n == 0 {
            return Ok(done);
        }
        done += n;
    }
    Ok(done)
}

fn main(rt: HostRuntime) {
    let mut text = [0u8; text::MOST_BYTES + 1];
    let Ok(n) = read_text(&mut rt.stdin(), &mut text) else {
        let _ = rt
            .stderr()
            .write_all(b"error: cannot read standard input\n");
        return;
    };
    let mut line = [0u8; line::LINE];
    trace::trace_check(&text[..n], &mut line);
    let _ = rt.stdout().write_all(&line);
}
