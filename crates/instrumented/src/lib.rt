// The instrumented rules for one operation of a thread, for guards that are declared, absent or inferred.

#![tactic(auto)]

ghost use Rattle.std.specs.Prelude.{◌≡◌, ◌+◌, ◌-◌, ◌^◌, ◌/◌, ◌%◌, ◌<◌, cond, true, false, get_or, eqb};
ghost use Rattle.frame.specs.Limits.{thread_count, lock_count};
ghost use Rattle.instrumented.specs.Rules.{fault_verdict, phase_at, committed, judging_of, judged, judge_operation};
ghost use Rattle.instrumented.specs.Held.{Holdable, holding, start_threads};

use frame::{Lock, THREADS, Thread, VARIABLES, Variable};
use operation::Operation;
use reply::Kind;

// What is wrong with a frame: a kind of violation, and the locks that it carries.
#[derive(Clone, Copy)]
pub struct Fault {
    pub kind: Kind,
    pub locks: u64,
}

// One operation of a thread at a place of the recording, and the depth of the thread before it.
#[derive(Clone, Copy)]
pub struct Step {
    pub place: u32,
    pub thread: Thread,
    pub depth: u8,
    pub operation: Operation,
}

// Where the threads stand between two frames: of each the set of the locks that it holds, the place of its outermost begin, and its commit,
// 0 for none and else the commit's place plus 1.
#[derive(Drop)]
pub struct Threads {
    pub held: [u64; THREADS],
    pub begins: [u32; THREADS],
    pub commits: [u32; THREADS],
}

// The set of one lock.
fn single(lock: Lock) -> u64
    requires { lock.0 < lock_count }
    ensures { result ≡ 2 ^ lock.0 }
{
    1 << lock.0
}

fn contains(set: u64, lock: Lock) -> bool
    requires { lock.0 < lock_count }
    ensures { result ≡ eqb (set / 2 ^ lock.0 % 2) 1 }
{
    (set >> lock.0) % 2 == 1
}

fn after_commit(depth: u8, commit: u32) -> bool
    ensures { result ≡ cond (eqb depth 0) false (cond (eqb commit 0) false true) }
{
    depth != 0 && commit != 0
}

// The commit of a thread after a frame that commits the block it stands in.
fn commit_at(depth: u8, commit: u32, place: u32) -> u32
    requires { place < 4294967295 }
    ensures { result ≡ committed depth commit place }
{
    if depth != 0 && commit == 0 {
        place + 1
    } else {
        commit
    }
}

impl Threads {
    // No thread holds a lock or is in a block.
    pub fn new() -> Threads
        ensures { result ≡ start_threads }
    {
        Threads {
            held: [0; THREADS],
            begins: [0; THREADS],
            commits: [0; THREADS],
        }
    }

    // The rules for one operation: the threads and the candidate sets after it, or what is wrong, which leaves them as they were.
    pub fn apply(&mut self, sets: &mut [u64; VARIABLES], step: Step) -> Result<(), Fault>
        requires thread_in { step.thread.0 < thread_count }
        requires place_in { step.place < 4294967295 }
        requires holdable { Holdable step.operation (get_or self.old.held step.thread.0 0) }
        ensures rules { judge_operation step.place step.thread step.depth (get_or self.old.held step.thread.0 0) step.operation (judging_of self.old.begins self.old.commits sets.old) ≡ judged (fault_verdict result step.place step.thread (phase_at step.depth step.thread (judging_of self.old.begins self.old.commits sets.old))) (judging_of self.new.begins self.new.commits sets.new) }
        ensures locks { self.new.held ≡ holding (fault_verdict result step.place step.thread (phase_at step.depth step.thread (judging_of self.old.begins self.old.commits sets.old))) step.thread.0 step.operation self.old.held }
    {
        let t = step.thread.0 as usize;
        let depth = step.depth;
        match step.operation {
            Operation::Acquire(lock) => {
                if after_commit(depth, self.commits[t]) {
                    return Err(Fault {
                        kind: Kind::AcquireAfterCommit,
                        locks: single(lock),
                    });
                }
                self.held[t] += single(lock);
            }
            Operation::Release(lock) => {
                self.held[t] -= single(lock);
                self.commits[t] = commit_at(depth, self.commits[t], step.place);
            }
            Operation::Protected(guard) => {
                if !contains(self.held[t], guard) {
                    return Err(Fault {
                        kind: Kind::GuardNotHeld,
                        locks: single(guard),
                    });
                }
            }
            Operation::Unprotected => {
                let commit = self.commits[t];
                if after_commit(depth, commit) {
                    return Err(Fault {
                        kind: Kind::UnprotectedAfterCommit,
                        locks: 0,
                    });
                }
                self.commits[t] = commit_at(depth, commit, step.place);
            }
            Operation::Inferred(Variable(variable)) => {
                let v = variable as usize;
                let set = sets[v];
                let shared = set & self.held[t];
                if shared == 0 {
                    return Err(Fault {
                        kind: Kind::SetEmptied,
                        locks: set,
                    });
                }
                sets[v] = shared;
            }
            Operation::Begin => {
                if depth == 0 {
                    self.begins[t] = step.place;
                    self.commits[t] = 0;
                }
            }
            Operation::End => {}
        }
        Ok(())
    }
}
