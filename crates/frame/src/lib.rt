// Frames (the field's term is event): a 32-bit word taken apart into a thread and what it does, and put together again.
// Also the refusals that every part of the library answers with.

#![tactic(auto)]

ghost use Rattle.std.specs.Prelude.{◌≡◌, ◌≤◌, ◌<◌, true, length};
ghost use Rattle.frame.specs.Frame.{decode_word, frame_at, split_word, encode_frame, word_of};
ghost use Rattle.frame.specs.Refusal.{refusal_number, refused_at, refusal_named};

// The limits of a recording: its threads, locks, variables and frames, the blocks that a thread may have open, and how often it may hold a
// lock.
pub const THREADS: usize = 32;

pub const LOCKS: usize = 64;

pub const VARIABLES: usize = 1024;

pub const MOST: usize = 4096;

pub const DEEPEST: u8 = 15;

pub const MOST_HELD: u8 = 15;

// The set of all locks: lock n is bit n.
pub const ALL_LOCKS: u64 = 18446744073709551615;

// The most frames as a place.
pub const MOST_PLACE: u32 = MOST as u32;

// The first numbers of an object that name no lock, no variable and no thread, as parts of a word.
const LOCK_END: u32 = LOCKS as u32;

const VARIABLE_END: u32 = VARIABLES as u32;

const THREAD_END: u32 = THREADS as u32;

// The first number that names no thread, as a byte.
const THREAD_BYTE_END: u8 = THREADS as u8;

// The three domains of numbers that a frame names.
#[derive(Clone, Copy)]
pub struct Thread(pub u8);

#[derive(Clone, Copy)]
pub struct Lock(pub u8);

#[derive(Clone, Copy)]
pub struct Variable(pub u16);

#[derive(Clone, Copy)]
pub enum Action {
    Acquire(Lock),
    Release(Lock),
    Read(Variable),
    Write(Variable),
    Begin,
    End,
}

#[derive(Clone, Copy)]
pub struct Frame {
    pub thread: Thread,
    pub action: Action,
}

// Why something is refused, with its number.
#[derive(Clone, Copy, PartialEq, Eq)]
pub enum Refusal {
    Line = 1,
    TooLong = 2,
    WordBuffer = 3,
    Operation = 4,
    Thread = 5,
    Object = 6,
    LockTaken = 7,
    LockNotHeld = 8,
    TooDeep = 9,
    NoOpenBlock = 10,
    GuardRange = 11,
    GuardRepeated = 12,
    Irreducible = 13,
    OpenBlock = 14,
    OutputBuffer = 15,
    SetTable = 16,
    LineBuffer = 17,
    VerdictLine = 18,
    TextBuffer = 19,
    TooOften = 20,
    MovesBuffer = 21,
}

// A number that no refusal has.
#[derive(Clone, Copy)]
pub struct UnknownRefusal(pub u8);

#[derive(Clone, Copy)]
pub struct Refused {
    pub reason: Refusal,
    pub place: u32,
}

// The three parts of a word: an operation 1 to 6, a thread, and an object that is below the number of variables.
#[derive(Clone, Copy)]
pub struct Parts {
    pub operation: u8,
    pub thread: Thread,
    pub object: u16,
}

// The parts of a word as numbers. Whether the object is one that the operation can have is not asked. No frame has a part outside its range.
pub fn split_word(word: u32) -> Option<Parts>
    ensures { result ≡ split_word word }
{
    let op = word / 0x1000000;
    let thread = (word / 0x10000 % 0x100) as u8;
    let object = word % 0x10000;
    if op < 1 || 7 <= op || THREAD_BYTE_END <= thread || VARIABLE_END <= object {
        return None;
    }
    Some(Parts {
        operation: op as u8,
        thread: Thread(thread),
        object: object as u16,
    })
}

// The frame of a word, or why it is none. Each operation has an arm and an answer of its own, so that a pass over frames goes on in its arm
// for the operation without another jump.
impl TryFrom<u32> for Frame {
    type Error = Refusal;

    ghost try_from_gives = { λ word reply. reply ≡ decode_word word };

    fn try_from(word: u32) -> Result<Frame, Refusal> {
        let op = word / 0x1000000;
        let thread = word / 0x10000 % 0x100;
        let object = word % 0x10000;
        if op < 1 || 6 < op {
            return Err(Refusal::Operation);
        }
        if THREAD_END <= thread {
            return Err(Refusal::Thread);
        }
        let thread = Thread(thread as u8);
        if op <= 2 {
            if LOCK_END <= object {
                return Err(Refusal::Object);
            }
            let lock = Lock(object as u8);
            if op == 1 {
                return Ok(Frame {
                    thread,
                    action: Action::Acquire(lock),
                });
            }
            return Ok(Frame {
                thread,
                action: Action::Release(lock),
            });
        }
        if op <= 4 {
            if VARIABLE_END <= object {
                return Err(Refusal::Object);
            }
            let variable = Variable(object as u16);
            if op == 3 {
                return Ok(Frame {
                    thread,
                    action: Action::Read(variable),
                });
            }
            return Ok(Frame {
                thread,
                action: Action::Write(variable),
            });
        }
        if object != 0 {
            return Err(Refusal::Object);
        }
        if op == 5 {
            return Ok(Frame {
                thread,
                action: Action::Begin,
            });
        }
        Ok(Frame {
            thread,
            action: Action::End,
        })
    }
}

impl Frame {
    // The frame at a place of a recording, or why its word is none.
    pub fn at(words: &[u32], place: usize) -> Result<Frame, Refused>
        requires within { place < length words.now }
        requires fits { place < 4294967296 }
        ensures { result ≡ frame_at words.now place }
    {
        match Frame::try_from(words[place]) {
            Ok(frame) => Ok(frame),
            Err(reason) => Err(reason.at(place as u32)),
        }
    }
}

fn word_of(op: u8, thread: u8, object: u16) -> u32
    ensures { result ≡ word_of op thread object }
{
    u32::from(op) * 0x1000000 + u32::from(thread) * 0x10000 + u32::from(object)
}

// The word of a frame.
impl From<Frame> for u32 {
    ghost from_gives = { λ frame word. word ≡ encode_frame frame };

    fn from(frame: Frame) -> u32 {
        let Thread(t) = frame.thread;
        match frame.action {
            Action::Acquire(Lock(l)) => word_of(1, t, u16::from(l)),
            Action::Release(Lock(l)) => word_of(2, t, u16::from(l)),
            Action::Read(Variable(v)) => word_of(3, t, v),
            Action::Write(Variable(v)) => word_of(4, t, v),
            Action::Begin => word_of(5, t, 0),
            Action::End => word_of(6, t, 0),
        }
    }
}

impl Refusal {
    pub fn at(self, place: u32) -> Refused
        ensures { result ≡ refused_at self place }
    {
        Refused {
            reason: self,
            place,
        }
    }
}

// The number of a refusal.
impl From<Refusal> for u8 {
    ghost from_gives = { λ reason number. number ≡ refusal_number reason };

    fn from(reason: Refusal) -> u8 {
        reason as u8
    }
}

// The refusal of a number.
impl TryFrom<u8> for Refusal {
    type Error = UnknownRefusal;

    ghost try_from_gives = { λ number reply. reply ≡ refusal_named number };

    fn try_from(number: u8) -> Result<Refusal, UnknownRefusal> {
        Ok(match number {
            1 => Refusal::Line,
            2 => Refusal::TooLong,
            3 => Refusal::WordBuffer,
            4 => Refusal::Operation,
            5 => Refusal::Thread,
            6 => Refusal::Object,
            7 => Refusal::LockTaken,
            8 => Refusal::LockNotHeld,
            9 => Refusal::TooDeep,
            10 => Refusal::NoOpenBlock,
            11 => Refusal::GuardRange,
            12 => Refusal::GuardRepeated,
            13 => Refusal::Irreducible,
            14 => Refusal::OpenBlock,
            15 => Refusal::OutputBuffer,
            16 => Refusal::SetTable,
            17 => Refusal::LineBuffer,
            18 => Refusal::VerdictLine,
            19 => Refusal::TextBuffer,
            20 => Refusal::TooOften,
            21 => Refusal::MovesBuffer,
            _ => return Err(UnknownRefusal(number)),
        })
    }
}
