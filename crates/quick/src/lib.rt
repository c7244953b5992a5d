// The check of a whole recording, quick on recordings that are sound. While frames pass, what a frame does chooses between numbers and not
// between ways through the code, so that nothing is to be predicted; the first that does not pass is left to crate soundness, which refuses it.

#![tactic(auto)]

ghost use Rattle.std.specs.Prelude.{◌≡◌, eqb, not, IfOk, IfErr, Err};
ghost use Rattle.soundness.specs.Soundness.{check_reply};
ghost use Rattle.quick.specs.Quick.{picked, object_end, held_end, owner_after, PassedBy, PassedTo};

use frame::{DEEPEST, LOCKS, MOST, MOST_HELD, MOST_PLACE, Refusal, Refused, Thread, VARIABLES};
use soundness::{Sound, State};

const LOCK_END: u16 = LOCKS as u16;

const VARIABLE_END: u16 = VARIABLES as u16;

const HELD_END: u8 = MOST_HELD + 1;

// One number where n is k, and another for all others.
fn pick(n: u8, k: u8, a: u8, b: u8) -> u8
    ensures { result ≡ picked n k a b }
{
    if n == k { a } else { b }
}

// The first object that an operation cannot have.
fn object_end(op: u8) -> u16
    ensures { result ≡ object_end op }
{
    if op <= 2 {
        LOCK_END
    } else if op <= 4 {
        VARIABLE_END
    } else {
        1
    }
}

// Whether a lock has an owner and is not held, or is held by none. It is so of no lock; a state in which it were is left to crate soundness.
fn differ(owner: u8, count: u8) -> bool
    ensures { result ≡ not (eqb (picked owner 0 1 0) (picked count 0 1 0)) }
{
    pick(owner, 0, 1, 0) != pick(count, 0, 1, 0)
}

// The first count of its lock with which an operation does not pass: its thread's own lock may be held as often as any, another or a free
// one has to be free for an acquire, and a release does not pass. What is no acquire and no release passes in any case.
fn held_end(op: u8, own: u8, owner: u8) -> u8
    ensures { result ≡ held_end op own owner }
{
    pick(
        owner,
        own,
        HELD_END,
        pick(op, 1, 1, pick(op, 2, 0, HELD_END)),
    )
}

// The lock's owner after an operation that leaves it held n times.
fn owner_after(op: u8, own: u8, owner: u8, n: u8) -> u8
    ensures { result ≡ owner_after op own owner n }
{
    if op <= 2 { pick(n, 0, 0, own) } else { owner }
}

// One word. Where its frame passes, the locks and blocks are as it leaves them; else they stay.
fn passes(state: &mut State, word: u32) -> bool
    ensures { PassedBy result word state.old state.new }
{
    let Some(parts) = frame::split_word(word) else {
        return false;
    };
    let op = parts.operation;
    let Thread(thread) = parts.thread;
    if object_end(op) <= parts.object {
        return false;
    }
    let l = usize::from(parts.object) % LOCKS;
    let t = usize::from(thread);
    let own = thread + 1;
    let owner = state.owners[l];
    let count = state.counts[l];
    let depth = state.depths[t];
    if differ(owner, count) {
        return false;
    }
    if held_end(op, own, owner) <= count {
        return false;
    }
    let taken = pick(op, 1, 1, 0);
    if MOST_HELD - taken < count {
        return false;
    }
    let begun = pick(op, 5, 1, 0);
    if DEEPEST - begun < depth {
        return false;
    }
    let ended = pick(op, 6, 1, 0);
    if depth + begun < ended {
        return false;
    }
    let n = count + taken - pick(op, 2, 1, 0);
    state.owners[l] = owner_after(op, own, owner, n);
    state.counts[l] = n;
    state.depths[t] = depth + begun - ended;
    true
}

// The frames from the start that pass: how many, and what they leave.
fn passed(words: &[u32], state: &mut State) -> usize
    ensures { PassedTo words.now result state.old state.new }
{
    for (i, &word) in words.iter().enumerate() {
        if !passes(state, word) {
            return i;
        }
    }
    words.len()
}

// A whole recording.
pub fn check(words: &[u32]) -> Result<(), Refused>
    ensures { result ≡ check_reply words.now }
{
    if MOST < words.len() {
        return Err(Refusal::TooLong.at(MOST_PLACE));
    }
    let mut state = State::new();
    let from = passed(words, &mut state);
    state.check_from(words, from)
}

// A recording that passes the check, or why it does not.
pub fn sound(words: &[u32]) -> Result<Sound<'_>, Refused>
    ensures ok { IfOk result (λ sound. sound.words.now ≡ words.now) }
    ensures err { IfErr result (λ refused. check_reply words.now ≡ Err refused) }
{
    check(words)?;
    Ok(Sound { words })
}
