// Which unit a frame commits, found while walking over a recording that has been judged reducible.

#![tactic(auto)]

ghost use Rattle.std.specs.Prelude.{◌≡◌, ◌<◌};
ghost use Rattle.frame.specs.Frame.{InRange, ObjectInRange};
ghost use Rattle.soundness.specs.Soundness.{nest};
ghost use Rattle.commit.specs.Commit.{Raisable, counted, committing, start_units, visited, unit_start};

use frame::{Action, Frame, LOCKS, Lock, THREADS, VARIABLES, Variable};
use guards::UNPROTECTED;

// The units between two frames: how often each lock is held, and of each thread the depth, the place where its unit started, and whether that
// unit has committed.
#[derive(Drop)]
pub struct Units {
    pub counts: [u32; LOCKS],
    pub depths: [u32; THREADS],
    pub starts: [u32; THREADS],
    pub committed: [bool; THREADS],
}

// An acquire or a release is counted. Whether the action commits the block that it stands in.
fn count(guards: &[u8; VARIABLES], counts: &mut [u32; LOCKS], action: Action) -> bool
    requires object_in { ObjectInRange action }
    requires raisable { Raisable counts.old }
    ensures commits { result ≡ committing guards.now counts.old action }
    ensures contents { counts.new ≡ counted action counts.old }
{
    match action {
        Action::Acquire(Lock(lock)) => {
            counts[usize::from(lock)] += 1;
            false
        }
        Action::Release(Lock(lock)) => {
            let l = usize::from(lock);
            let held = counts[l];
            counts[l] = held.saturating_sub(1);
            held <= 1
        }
        Action::Read(Variable(v)) | Action::Write(Variable(v)) => {
            guards[usize::from(v)] == UNPROTECTED
        }
        Action::Begin | Action::End => false,
    }
}

// The depth of a thread after its action.
fn depth_after(action: Action, depth: u32) -> u32
    requires { depth < 4294967295 }
    ensures { result ≡ nest depth action }
{
    match action {
        Action::Begin => depth + 1,
        Action::End => depth.saturating_sub(1),
        _ => depth,
    }
}

impl Units {
    // No lock is held, and no block is open.
    #[tactic(auto, unfolding(crate::specs::Commit::start_units))]
    pub fn new() -> Units
        ensures { result ≡ start_units }
    {
        Units {
            counts: [0; LOCKS],
            depths: [0; THREADS],
            starts: [0; THREADS],
            committed: [false; THREADS],
        }
    }

    // A frame at a place. The start of the unit that the frame commits.
    #[tactic(auto, unfolding(crate::specs::Commit::visited, crate::specs::Commit::unit_start))]
    pub fn visit(&mut self, guards: &[u8; VARIABLES], place: u32, frame: Frame) -> Option<u32>
        requires in_range { InRange frame }
        requires counts_raisable { Raisable self.old.counts }
        requires depths_raisable { Raisable self.old.depths }
        ensures start { result ≡ unit_start guards.now place frame self.old }
        ensures units { self.new ≡ visited guards.now place frame self.old }
    {
        let t = usize::from(frame.thread.0);
        let depth = self.depths[t];
        let after = depth_after(frame.action, depth);
        let commits = count(guards, &mut self.counts, frame.action);
        let committed = self.committed[t];
        let start = if depth == 0 { place } else { self.starts[t] };
        self.depths[t] = after;
        self.starts[t] = start;
        self.committed[t] = after != 0 && (commits || committed);
        if !committed && (commits || after == 0) {
            Some(start)
        } else {
            None
        }
    }
}
