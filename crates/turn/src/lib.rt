// One turn of a pass over a recording: a frame is checked for soundness and judged.

#![tactic(auto)]

ghost use Rattle.std.specs.Prelude.{◌≡◌, ◌<◌};
ghost use Rattle.frame.specs.Frame.{InRange};
ghost use Rattle.instrumented.specs.Rules.{judging_of};
ghost use Rattle.instrumented.specs.Held.{Follows};
ghost use Rattle.turn.specs.Turn.{turned, turned_to, FollowsAfter};
ghost use Rattle.turn.specs.declared.Stop.TheVariants.{Refused, Wrong};

use frame::{Frame, Refusal, VARIABLES};
use instrumented::{Step, Threads};
use reply::Violation;
use soundness::State;

// Why a pass stops at a frame: the frame is refused, or goes wrong.
#[derive(Clone, Copy)]
pub enum Stop {
    Refused(Refusal),
    Wrong(Violation),
}

impl From<Refusal> for Stop {
    ghost from_gives = { λ reason stop. stop ≡ Refused reason };

    fn from(reason: Refusal) -> Stop {
        Stop::Refused(reason)
    }
}

impl From<Violation> for Stop {
    ghost from_gives = { λ violation stop. stop ≡ Wrong violation };

    fn from(violation: Violation) -> Stop {
        Stop::Wrong(violation)
    }
}

// A frame at a place, with the locks and depths and where the threads stand as they are before it.
pub fn judge_frame(
    guards: &[u8; VARIABLES],
    state: &mut State,
    threads: &mut Threads,
    sets: &mut [u64; VARIABLES],
    place: u32,
    frame: Frame,
) -> Result<(), Stop>
    requires in_range { InRange frame }
    requires place_in { place < 4294967295 }
    requires follows { Follows threads.old.held state.old.owners }
    ensures rules { turned guards.now place frame state.old (judging_of threads.old.begins threads.old.commits sets.old) ≡ turned_to result state.new (judging_of threads.new.begins threads.new.commits sets.new) }
    ensures locks { FollowsAfter result threads.old.held threads.new.held state.new.owners }
{
    let thread = frame.thread;
    let depth = state.depths[thread.0 as usize];
    let level = state.step(frame)?;
    let operation = operation::operation_of(guards, level, frame.action);
    judge::judge(
        threads,
        sets,
        Step {
            place,
            thread,
            depth,
            operation,
        },
    )?;
    Ok(())
}
