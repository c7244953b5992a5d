// The lines of a text, by number: a table of texts is one text, with a line for each.

#![tactic(auto)]

ghost use Rattle.std.specs.Prelude.{◌≡◌, ◌+◌, ◌≤◌, length, drop};
ghost use Rattle.textlines.specs.Lines.{line_length, nth_line};

// The place behind the line that starts at a place.
fn line_end(text: &[u8], start: usize) -> usize
    requires { start ≤ length text.now }
    ensures { result ≡ start + line_length (drop start text.now) }
{
    match text[start..].iter().position(|byte| *byte == b'\n') {
        Some(place) => start + place + 1,
        None => text.len(),
    }
}

// Line n, counted from 0, with its line end; nothing where the text has no such line.
pub fn nth_line(text: &[u8], n: u8) -> &[u8]
    ensures { result.now ≡ nth_line n text.now }
{
    let mut start = 0;
    for _line in 0..n {
        start = line_end(text, start);
    }
    &text[start..line_end(text, start)]
}
