// The judgement of a whole recording, in one pass: each frame is checked for soundness and judged; after a violation the rest is checked
// for soundness alone, since a refusal anywhere wins over a verdict.

#![tactic(auto)]

ghost use Rattle.std.specs.Prelude.{◌≡◌, ◌≤◌, length};
ghost use Rattle.frame.specs.Limits.{thread_count, most_frames};
ghost use Rattle.soundness.specs.Soundness.{start};
ghost use Rattle.instrumented.specs.Rules.{judging_of};
ghost use Rattle.instrumented.specs.Held.{start_threads};
ghost use Rattle.pass.specs.Pass.{judgement, sets_left, earlier, first_open_from, first_open, open_under, open_at_end};

use frame::{Frame, MOST, MOST_PLACE, Refusal, THREADS, VARIABLES};
use instrumented::Threads;
use reply::Reply;
use soundness::State;
use turn::Stop;

// What a pass answers: the reply, and the first open begin at the end of a recording that is reducible.
#[derive(Clone, Copy)]
pub struct Passed {
    pub reply: Reply,
    pub unclosed: Option<u32>,
}

// The earlier of two places.
fn earlier_of(a: Option<u32>, b: Option<u32>) -> Option<u32>
    ensures { result ≡ earlier a b }
{
    match (a, b) {
        (Some(x), Some(y)) => Some(if y < x { y } else { x }),
        (None, _) => b,
        (_, None) => a,
    }
}

// The earliest begin of a block that is open.
fn earliest_open(depths: &[u8; THREADS], begins: &[u32; THREADS]) -> Option<u32>
    ensures { result ≡ first_open_from thread_count 0 None depths.now begins.now }
{
    let mut least = None;
    for t in 0..THREADS {
        if depths[t] != 0 {
            least = earlier_of(least, Some(begins[t]));
        }
    }
    least
}

// The frames of a recording that is not too long, from the start on. Where it is reducible, the state and the threads are those at its end.
fn run(
    words: &[u32],
    guards: &[u8; VARIABLES],
    state: &mut State,
    threads: &mut Threads,
    sets: &mut [u64; VARIABLES],
) -> Reply
    requires fits { length words.now ≤ most_frames }
    requires nothing_locked { state.old ≡ start }
    requires nothing_begun { threads.old ≡ start_threads }
    ensures reply { result ≡ (judgement guards.now sets.old words.now).reply }
    ensures unclosed { open_under result (first_open state.new (judging_of threads.new.begins threads.new.commits sets.new)) ≡ open_at_end (judgement guards.now sets.old words.now) }
    ensures contents { sets.new ≡ sets_left guards.now sets.old words.now }
{
    for i in 0..words.len() {
        let frame = Frame::at(words, i)?;
        if let Err(stop) = turn::judge_frame(guards, state, threads, sets, i as u32, frame) {
            return match stop {
                Stop::Refused(reason) => Err(reason.at(i as u32)),
                Stop::Wrong(violation) => {
                    state.check_from(words, i + 1)?;
                    Ok(Err(violation))
                }
            };
        }
    }
    Ok(Ok(()))
}

// The reply, the first open begin, and the candidate sets as far as the pass came.
pub fn judge_recording(
    words: &[u32],
    guards: &[u8; VARIABLES],
    sets: &mut [u64; VARIABLES],
) -> Passed
    ensures reply { result.reply ≡ (judgement guards.now sets.old words.now).reply }
    ensures unclosed { result.unclosed ≡ open_at_end (judgement guards.now sets.old words.now) }
    ensures contents { sets.new ≡ sets_left guards.now sets.old words.now }
{
    if MOST < words.len() {
        return Passed {
            reply: Err(Refusal::TooLong.at(MOST_PLACE)),
            unclosed: None,
        };
    }
    let mut state = State::new();
    let mut threads = Threads::new();
    let reply = run(words, guards, &mut state, &mut threads, sets);
    let unclosed = match reply {
        Ok(Ok(())) => earliest_open(&state.depths, &threads.begins),
        _ => None,
    };
    Passed { reply, unclosed }
}
