// The functions that C programs call, by way of crate tracetext_c: recordings written as text, verdict lines read and written by their
// fields.

#![tactic(auto)]

ghost use Rattle.std.specs.Prelude.{◌≡◌, length};
ghost use Rattle.writer.specs.Writer.{write_reply, text_after};
ghost use Rattle.fields.specs.Fields.{line_fields};
ghost use Rattle.tracetext.specs.Texts.{write_answer, fields_answer, left, kind_of, frame_of, thread_of, begin_of, commit_of, locks_of, given, write_line_answer, write_line_after};

use fields::field_mark;
use frame::Refusal;
use line::{Fields, LINE, mark_field};

// The bytes of a line as a place.
const LINE_PLACE: u32 = LINE as u32;

// A sound recording as text, from a place on.
pub fn trace_write(words: &[u32], text: &mut [u8], place: usize) -> u64
    ensures reply { result ≡ write_answer (write_reply words.now (length text.old) place) }
    ensures contents { text.new ≡ text_after (write_reply words.now (length text.old) place) words.now text.old place }
{
    reply::answer(writer::write_recording(words, text, place))
}

// The fields of a verdict line.
pub fn trace_line_read(
    line: &[u8],
    kind: &mut u8,
    frame: &mut u16,
    thread: &mut u8,
    begin: &mut u16,
    commit: &mut u16,
    locks: &mut u64,
) -> u64
    ensures reply { result ≡ fields_answer (line_fields line.now) }
    ensures kind { kind.new ≡ left kind_of (line_fields line.now) kind.old }
    ensures frame { frame.new ≡ left frame_of (line_fields line.now) frame.old }
    ensures thread { thread.new ≡ left thread_of (line_fields line.now) thread.old }
    ensures begin { begin.new ≡ left begin_of (line_fields line.now) begin.old }
    ensures commit { commit.new ≡ left commit_of (line_fields line.now) commit.old }
    ensures locks { locks.new ≡ left locks_of (line_fields line.now) locks.old }
{
    match fields::read_fields(line) {
        Ok(f) => {
            *kind = f.kind;
            *frame = f.frame;
            *thread = f.thread;
            *begin = mark_field(f.begin);
            *commit = mark_field(f.commit);
            *locks = f.locks;
            0
        }
        Err(refused) => reply::pack(refused),
    }
}

// A verdict line of these fields, at the front of a buffer.
pub fn trace_line_write(
    kind: u8,
    frame: u16,
    thread: u8,
    begin: u16,
    commit: u16,
    locks: u64,
    line: &mut [u8],
) -> u64
    ensures reply { result ≡ write_line_answer (given kind frame thread begin commit locks) (length line.old) }
    ensures contents { line.new ≡ write_line_after (given kind frame thread begin commit locks) line.old }
{
    if line.len() < LINE {
        return reply::pack(Refusal::LineBuffer.at(LINE_PLACE));
    }
    let fields = Fields {
        kind,
        frame,
        thread,
        begin: field_mark(begin),
        commit: field_mark(commit),
        locks,
    };
    match fields::write_fields(fields) {
        Ok(l) => {
            line::put_line(line, &l);
            LINE as u64
        }
        Err(refusal) => reply::pack(refusal),
    }
}
