// Verdict lines by their fields: a kept line read, and fields written as a line.

#![tactic(auto)]

ghost use Rattle.std.specs.Prelude.{◌≡◌};
ghost use Rattle.line.specs.Line.{place_width, field_mark};
ghost use Rattle.fields.specs.Fields.{is_kind, line_fields, written_line};

use digits::{digit_list, join};
use frame::{Refusal, Refused};
use line::{
    ABSENT, BEGIN_AT, COMMIT_AT, FRAME_AT, Fields, LINE, LINE_END, LOCKS_AT, Place, THREAD_AT,
};

// What is no verdict line.
const NO_LINE: Refused = Refused {
    reason: Refusal::VerdictLine,
    place: 0,
};

// Whether a line may have a kind.
fn is_kind(k: u8) -> bool
    ensures { result ≡ is_kind k }
{
    k < 5 || 128 < k
}

// What the number of a begin or a commit says.
pub fn field_mark(v: Place) -> Option<Place>
    ensures { result ≡ field_mark place_width v }
{
    if v == ABSENT { None } else { Some(v) }
}

// The fields of a verdict line.
pub fn read_fields(line: &[u8]) -> Result<Fields, Refused>
    ensures { result ≡ line_fields line.now }
{
    let mut d = [0; LINE_END];
    if line.len() != LINE || line[LINE_END] != b'\n' || 0 < digit_list(line, &mut d) {
        return Err(NO_LINE);
    }
    let fields = Fields {
        kind: join(&d[..FRAME_AT]) as u8,
        frame: join(&d[FRAME_AT..THREAD_AT]) as Place,
        thread: join(&d[THREAD_AT..BEGIN_AT]) as u8,
        begin: field_mark(join(&d[BEGIN_AT..COMMIT_AT]) as Place),
        commit: field_mark(join(&d[COMMIT_AT..LOCKS_AT]) as Place),
        locks: join(&d[LOCKS_AT..]),
    };
    if is_kind(fields.kind) {
        Ok(fields)
    } else {
        Err(NO_LINE)
    }
}

// The line of some fields, or why it is none.
pub fn write_fields(f: Fields) -> Result<[u8; LINE], Refused>
    ensures { result ≡ written_line f }
{
    if is_kind(f.kind) {
        Ok(line::fields_line(f))
    } else {
        Err(NO_LINE)
    }
}
