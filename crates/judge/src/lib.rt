// The judgement of one sound frame by the instrumented rules, for guards that are declared, absent or inferred.

#![tactic(auto)]

ghost use Rattle.std.specs.Prelude.{◌≡◌, ◌-◌, ◌<◌, cond, get_or, eqb};
ghost use Rattle.frame.specs.Limits.{thread_count};
ghost use Rattle.instrumented.specs.Rules.{judging_of, judged, judge_operation};
ghost use Rattle.instrumented.specs.Held.{Holdable, holding};

use frame::VARIABLES;
use instrumented::{Step, Threads};
use reply::{Verdict, Violation};

// The outermost begin of a thread, where a block is open.
fn begin_mark(depth: u8, begin: u32) -> Option<u32>
    ensures { result ≡ cond (eqb depth 0) None (Some begin) }
{
    if depth == 0 { None } else { Some(begin) }
}

// The commit of its block, where that has committed.
fn commit_mark(depth: u8, commit: u32) -> Option<u32>
    ensures { result ≡ cond (eqb depth 0) None (cond (eqb commit 0) None (Some (commit - 1))) }
{
    if depth == 0 || commit == 0 {
        None
    } else {
        Some(commit - 1)
    }
}

// One sound frame.
pub fn judge(threads: &mut Threads, sets: &mut [u64; VARIABLES], step: Step) -> Verdict
    requires thread_in { step.thread.0 < thread_count }
    requires place_in { step.place < 4294967295 }
    requires holdable { Holdable step.operation (get_or threads.old.held step.thread.0 0) }
    ensures rules { judge_operation step.place step.thread step.depth (get_or threads.old.held step.thread.0 0) step.operation (judging_of threads.old.begins threads.old.commits sets.old) ≡ judged result (judging_of threads.new.begins threads.new.commits sets.new) }
    ensures locks { threads.new.held ≡ holding result step.thread.0 step.operation threads.old.held }
{
    match threads.apply(sets, step) {
        Ok(()) => Ok(()),
        Err(fault) => {
            let t = step.thread.0 as usize;
            Err(Violation {
                kind: fault.kind,
                frame: step.place,
                thread: step.thread,
                begin: begin_mark(step.depth, threads.begins[t]),
                commit: commit_mark(step.depth, threads.commits[t]),
                locks: fault.locks,
            })
        }
    }
}
