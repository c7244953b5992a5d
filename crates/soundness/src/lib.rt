// Whether a recording (the field's term is trace) is sound: each frame decodes, and locks and blocks are taken and left in turn.

#![tactic(auto)]

ghost use Rattle.std.specs.Prelude.{◌≡◌, ◌≤◌, ◌<◌, Ok, length, drop, get_or};
ghost use Rattle.frame.specs.Frame.{InRange, decode_word};
ghost use Rattle.soundness.specs.Soundness.{step_frame, stepped, start, checked, check_from, check_reply};

use frame::{
    Action, DEEPEST, Frame, LOCKS, Lock, MOST, MOST_HELD, MOST_PLACE, Refusal, Refused, THREADS,
    Thread,
};

// Whether a frame is an inner acquire or release (the field's term is re-entrant), of a lock that its thread holds before and after.
#[derive(Clone, Copy)]
pub enum Level {
    Outer,
    Inner,
}

// The locks and blocks between two frames: the owner of each lock (0 for none, else a thread's number plus 1), how often it is held, and
// the depth of each thread.
#[derive(Drop)]
pub struct State {
    pub owners: [u8; LOCKS],
    pub counts: [u8; LOCKS],
    pub depths: [u8; THREADS],
}

impl State {
    // No lock is held, and no block is open.
    pub fn new() -> State
        ensures { result ≡ start }
    {
        State {
            owners: [0; LOCKS],
            counts: [0; LOCKS],
            depths: [0; THREADS],
        }
    }

    // One frame. Where it is refused, nothing changes.
    pub fn step(&mut self, frame: Frame) -> Result<Level, Refusal>
        requires { InRange frame }
        ensures { step_frame frame self.old ≡ stepped result self.new }
    {
        let Thread(thread) = frame.thread;
        let t = usize::from(thread);
        match frame.action {
            Action::Acquire(Lock(lock)) => {
                let l = usize::from(lock);
                let owner = self.owners[l];
                if owner == 0 {
                    self.owners[l] = thread + 1;
                    self.counts[l] = 1;
                    return Ok(Level::Outer);
                }
                if owner != thread + 1 {
                    return Err(Refusal::LockTaken);
                }
                let count = self.counts[l];
                if MOST_HELD <= count {
                    return Err(Refusal::TooOften);
                }
                self.counts[l] = count + 1;
                Ok(Level::Inner)
            }
            Action::Release(Lock(lock)) => {
                let l = usize::from(lock);
                if self.owners[l] != thread + 1 {
                    return Err(Refusal::LockNotHeld);
                }
                let count = self.counts[l];
                if count <= 1 {
                    self.owners[l] = 0;
                    self.counts[l] = 0;
                    return Ok(Level::Outer);
                }
                self.counts[l] = count - 1;
                Ok(Level::Inner)
            }
            Action::Begin => {
                let depth = self.depths[t];
                if DEEPEST <= depth {
                    return Err(Refusal::TooDeep);
                }
                self.depths[t] = depth + 1;
                Ok(Level::Outer)
            }
            Action::End => {
                let depth = self.depths[t];
                if depth == 0 {
                    return Err(Refusal::NoOpenBlock);
                }
                self.depths[t] = depth - 1;
                Ok(Level::Outer)
            }
            Action::Read(_) | Action::Write(_) => Ok(Level::Outer),
        }
    }

    // The frames from a place on.
    pub fn check_from(&mut self, words: &[u32], from: usize) -> Result<(), Refused>
        requires within { from ≤ length words.now }
        requires fits { length words.now ≤ 4294967296 }
        ensures { checked result self.new ≡ check_from from self.old (drop from words.now) }
    {
        for i in from..words.len() {
            let frame = Frame::at(words, i)?;
            if let Err(reason) = self.step(frame) {
                return Err(reason.at(i as u32));
            }
        }
        Ok(())
    }
}

// A recording that is sound.
#[derive(Clone, Copy)]
pub struct Sound<'a> {
    pub words: &'a [u32],
    ghost is_sound: { check_reply words.now ≡ Ok tt },
}

impl Sound<'_> {
    // The frame at a place: each word of a sound recording is one.
    pub fn frame(self, place: usize) -> Frame
        requires { place < length self.words.now }
        ensures { decode_word (get_or self.entry.words.now place 0) ≡ Ok result }
    {
        Frame::try_from(self.words[place]).unwrap()
    }
}

// A whole recording.
pub fn check(words: &[u32]) -> Result<(), Refused>
    ensures { result ≡ check_reply words.now }
{
    if MOST < words.len() {
        return Err(Refusal::TooLong.at(MOST_PLACE));
    }
    State::new().check_from(words, 0)
}
