// The verdict line: the fields of a reply, written as hexadecimal digits and LF.

#![tactic(auto)]

ghost use Rattle.std.specs.Prelude.{◌≡◌, ◌++◌, ◌≤◌, length, drop};
ghost use Rattle.line.specs.Line.{place_width, mark_field, bare_fields, reply_fields, held_place, held_fields, line_length, fields_line, verdict_line};

use digits::put;
use reply::Reply;

// The digits of the fields: of a kind, of a frame, a begin or a commit, of a thread, of the locks.
pub const KIND_WIDTH: usize = 2;

pub const PLACE_WIDTH: usize = 4;

pub const THREAD_WIDTH: usize = 2;

pub const LOCKS_WIDTH: usize = 16;

// Where the fields of a line start.
pub const FRAME_AT: usize = KIND_WIDTH;

pub const THREAD_AT: usize = FRAME_AT + PLACE_WIDTH;

pub const BEGIN_AT: usize = THREAD_AT + THREAD_WIDTH;

pub const COMMIT_AT: usize = BEGIN_AT + PLACE_WIDTH;

pub const LOCKS_AT: usize = COMMIT_AT + PLACE_WIDTH;

// Where the LF of a line stands, and the bytes of a line.
pub const LINE_END: usize = LOCKS_AT + LOCKS_WIDTH;

pub const LINE: usize = LINE_END + 1;

// A place that the digits of a line hold, and the first number that they do not.
pub type Place = u16;

const PLACE_END: u32 = 1 << (4 * PLACE_WIDTH);

// The begin or commit that is absent: the highest that its digits hold.
pub const ABSENT: Place = (PLACE_END - 1) as Place;

// The fields of a verdict line.
#[derive(Clone, Copy)]
pub struct Fields {
    pub kind: u8,
    pub frame: Place,
    pub thread: u8,
    pub begin: Option<Place>,
    pub commit: Option<Place>,
    pub locks: u64,
}

// The number of a begin or a commit.
pub fn mark_field(m: Option<Place>) -> Place
    ensures { result ≡ mark_field place_width m }
{
    m.unwrap_or(ABSENT)
}

// The low digits of a place, as many as a line has.
fn held_place(p: u32) -> Place
    ensures { result ≡ held_place p }
{
    (p % PLACE_END) as Place
}

// The fields that a refusal and a reducible recording share.
fn bare_fields(kind: u8, frame: u32) -> Fields
    ensures { result ≡ held_fields (bare_fields kind frame) }
{
    Fields {
        kind,
        frame: held_place(frame),
        thread: 0,
        begin: None,
        commit: None,
        locks: 0,
    }
}

// The fields of a reply to a recording of so many frames.
pub fn reply_fields(r: Reply, frames: u32) -> Fields
    ensures { result ≡ held_fields (reply_fields r frames) }
{
    match r {
        Err(x) => bare_fields(128 + u8::from(x.reason), x.place),
        Ok(Ok(())) => bare_fields(0, frames),
        Ok(Err(v)) => Fields {
            kind: u8::from(v.kind),
            frame: held_place(v.frame),
            thread: v.thread.0,
            begin: v.begin.map(held_place),
            commit: v.commit.map(held_place),
            locks: v.locks,
        },
    }
}

// The bytes of a line: LFs, of which the digits leave the last.
pub fn fields_line(f: Fields) -> [u8; LINE]
    ensures { result ≡ fields_line f }
{
    let mut line = [b'\n'; LINE];
    put(&mut line[..FRAME_AT], u64::from(f.kind));
    put(&mut line[FRAME_AT..THREAD_AT], u64::from(f.frame));
    put(&mut line[THREAD_AT..BEGIN_AT], u64::from(f.thread));
    put(
        &mut line[BEGIN_AT..COMMIT_AT],
        u64::from(mark_field(f.begin)),
    );
    put(
        &mut line[COMMIT_AT..LOCKS_AT],
        u64::from(mark_field(f.commit)),
    );
    put(&mut line[LOCKS_AT..LINE_END], f.locks);
    line
}

// The line of a reply to a recording of so many frames.
pub fn verdict_line(r: Reply, frames: u32) -> [u8; LINE]
    ensures { result ≡ verdict_line r frames }
{
    fields_line(reply_fields(r, frames))
}

// A line at the front of a lent buffer. The rest is left.
pub fn put_line(out: &mut [u8], l: &[u8; LINE])
    requires { line_length ≤ length out.old }
    ensures { out.new ≡ l.now ++ drop line_length out.old }
{
    out[..LINE].copy_from_slice(l);
}
