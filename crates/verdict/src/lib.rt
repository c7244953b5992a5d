// The verdicts of a recording: with declared guards, and with inferred ones.

#![tactic(auto)]

ghost use Rattle.std.specs.Prelude.{◌≡◌, length};
ghost use Rattle.guards.specs.Judgement.{way_of, list_of};
ghost use Rattle.verdict.specs.Verdict.{verdict_under, inferred_reply, inferred_sets};

use frame::{ALL_LOCKS, Refusal, VARIABLES};
use guards::{INFERRED, Judgement, UNPROTECTED};
use reply::Reply;

// The entries of a table of candidate sets, as a place.
const VARIABLE_COUNT: u32 = VARIABLES as u32;

// The verdict by a judgement.
pub fn judge(judgement: Judgement<'_>, words: &[u32]) -> Reply
    ensures { result ≡ verdict_under (way_of judgement.entry) (list_of judgement.entry) words.now }
{
    let mut table = [UNPROTECTED; VARIABLES];
    judgement.guards(&mut table)?;
    let mut sets = [ALL_LOCKS; VARIABLES];
    pass::judge_recording(words, &table, &mut sets).reply
}

// The verdict with inferred guards, and the candidate sets into a lent table.
pub fn inferred(words: &[u32], sets: &mut [u64]) -> Reply
    ensures reply { result ≡ inferred_reply words.now (length sets.old) }
    ensures contents { sets.new ≡ inferred_sets words.now sets.old }
{
    let guards = [INFERRED; VARIABLES];
    let mut own = [ALL_LOCKS; VARIABLES];
    let verdict = pass::judge_recording(words, &guards, &mut own).reply?;
    if sets.len() < VARIABLES {
        return Err(Refusal::SetTable.at(VARIABLE_COUNT));
    }
    sets[..VARIABLES].copy_from_slice(&own);
    Ok(verdict)
}
