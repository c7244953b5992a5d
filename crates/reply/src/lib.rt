// What a judgement answers: a refusal, or a verdict. Also a refusal as one number, for C programs.

#![tactic(auto)]

ghost use Rattle.std.specs.Prelude.{◌≡◌};
ghost use Rattle.reply.specs.Reply.{kind_number, kind_named, packed, answered};

use frame::{Refused, Thread};

// What goes wrong at a frame, with its number.
#[derive(Clone, Copy, PartialEq, Eq)]
pub enum Kind {
    GuardNotHeld = 1,
    UnprotectedAfterCommit = 2,
    AcquireAfterCommit = 3,
    SetEmptied = 4,
}

// A number that no kind has.
#[derive(Clone, Copy)]
pub struct UnknownKind(pub u8);

// The violation: its kind, the frame where it is, the thread and its block's begin and commit where it has them, and locks as the kind says.
#[derive(Clone, Copy)]
pub struct Violation {
    pub kind: Kind,
    pub frame: u32,
    pub thread: Thread,
    pub begin: Option<u32>,
    pub commit: Option<u32>,
    pub locks: u64,
}

// The verdict: reducible, or where and how the recording goes wrong.
pub type Verdict = Result<(), Violation>;

// What a judgement answers: a refusal, or the verdict.
pub type Reply = Result<Verdict, Refused>;

// The number of a kind.
impl From<Kind> for u8 {
    ghost from_gives = { λ kind number. number ≡ kind_number kind };

    fn from(kind: Kind) -> u8 {
        kind as u8
    }
}

// The kind of a number.
impl TryFrom<u8> for Kind {
    type Error = UnknownKind;

    ghost try_from_gives = { λ number reply. reply ≡ kind_named number };

    fn try_from(number: u8) -> Result<Kind, UnknownKind> {
        match number {
            1 => Ok(Kind::GuardNotHeld),
            2 => Ok(Kind::UnprotectedAfterCommit),
            3 => Ok(Kind::AcquireAfterCommit),
            4 => Ok(Kind::SetEmptied),
            _ => Err(UnknownKind(number)),
        }
    }
}

// A refusal as one number.
pub fn pack(refused: Refused) -> u64
    ensures { result ≡ packed refused }
{
    u64::from(u8::from(refused.reason)) * 0x1_0000_0000 + u64::from(refused.place)
}

// A count, or the refusal of the call that asked for it, as one number.
pub fn answer(reply: Result<u32, Refused>) -> u64
    ensures { result ≡ answered reply }
{
    match reply {
        Ok(count) => u64::from(count),
        Err(refused) => pack(refused),
    }
}
