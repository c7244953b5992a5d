// The steps of the comparison of two recordings: where a thread's next frame stands, and noting that a frame is matched.

#![tactic(auto)]

ghost use Rattle.std.specs.Prelude.{◌≡◌, ◌≤◌, ltb, length};
ghost use Rattle.frame.specs.Frame.{ObjectInRange};
ghost use Rattle.matching.specs.Places.{no_lasts, last_at, with_last, Finds};

use frame::{Action, LOCKS, Lock, Thread, VARIABLES, Variable};
use soundness::Sound;

// One more than a place, 0 for none: for each lock the last place matched that names it, for each variable the place of the last write
// matched, and the greatest place matched of any access.
#[derive(Drop)]
pub struct Lasts {
    pub locks: [u32; LOCKS],
    pub writes: [u32; VARIABLES],
    pub accesses: [u32; VARIABLES],
}

impl Lasts {
    // Nothing is matched.
    pub fn new() -> Lasts
        ensures { result ≡ no_lasts }
    {
        Lasts {
            locks: [0; LOCKS],
            writes: [0; VARIABLES],
            accesses: [0; VARIABLES],
        }
    }

    // A frame with this action is matched; `next` is one more than its place. Answers whether what clashes with it was matched before that
    // only.
    pub fn note(&mut self, action: Action, next: u32) -> bool
        requires { ObjectInRange action }
        ensures below { result ≡ ltb (last_at action self.old) next }
        ensures noted { self.new ≡ with_last action next self.old }
    {
        match action {
            Action::Acquire(Lock(lock)) | Action::Release(Lock(lock)) => {
                let l = usize::from(lock);
                let last = self.locks[l];
                self.locks[l] = next;
                last < next
            }
            Action::Read(Variable(variable)) => {
                let v = usize::from(variable);
                let written = self.writes[v];
                self.accesses[v] = self.accesses[v].max(next);
                written < next
            }
            Action::Write(Variable(variable)) => {
                let v = usize::from(variable);
                let accessed = self.accesses[v];
                self.writes[v] = next;
                self.accesses[v] = next;
                accessed < next
            }
            Action::Begin | Action::End => 0 < next,
        }
    }
}

// The first place, `from` or later, of a frame of a thread. Not inlined, since the loop is then shorter: what is done with the word found
// would have it load whole words.
#[inline(never)]
pub fn find(sound: Sound<'_>, from: usize, thread: Thread) -> Option<usize>
    requires { from ≤ length sound.words.now }
    ensures { Finds sound.entry.words.now thread.0 from result }
{
    let words = sound.words;
    let number = u32::from(thread.0);
    for i in from..words.len() {
        if words[i] / 0x10000 % 0x100 == number {
            return Some(i);
        }
    }
    None
}
