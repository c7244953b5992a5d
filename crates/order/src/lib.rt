// What is asked by a judgement of a recording in its serial order: all checks, then the walk into a lent table. The order itself is that of words.

#![tactic(auto)]

ghost use Rattle.std.specs.Prelude.{◌≡◌, length};
ghost use Rattle.guards.specs.Judgement.{way_of, list_of};
ghost use Rattle.order.specs.Order.{reply_by, reply_under, written_under, order_under, out_under};

use frame::{ALL_LOCKS, Refusal, Refused, VARIABLES};
use guards::{Judgement, UNPROTECTED};
use soundness::Sound;
use walk::Entry;

// What a request on a recording under a table of guards is answered, with what it writes left out: a lent table has room for a number of
// entries, and is refused by `short` where these are fewer than the frames.
#[tactic(auto, unfolding(crate::specs::Order::reply_by, pass::specs::Pass::full_sets))]
pub fn check(
    words: &[u32],
    guards: &[u8; VARIABLES],
    room: usize,
    short: Refusal,
) -> Result<u32, Refused>
    ensures { result ≡ reply_by short guards.now words.now room }
{
    let mut sets = [ALL_LOCKS; VARIABLES];
    let passed = pass::judge_recording(words, guards, &mut sets);
    if let Err(violation) = passed.reply? {
        return Err(Refusal::Irreducible.at(violation.frame));
    }
    if let Some(begin) = passed.unclosed {
        return Err(Refusal::OpenBlock.at(begin));
    }
    let count = words.len() as u32;
    if room < words.len() {
        return Err(short.at(count));
    }
    Ok(count)
}

// What a table holds of each frame, put into it in the serial order by a judgement. The reply is the number of frames.
#[tactic(auto, unfolding(crate::specs::Order::reply_under, crate::specs::Order::written_under))]
pub fn write<E: Entry>(
    judgement: Judgement<'_>,
    words: &[u32],
    table: &mut [E],
) -> Result<u32, Refused>
    ensures reply { result ≡ reply_under E.SHORT (way_of judgement.entry) (list_of judgement.entry) words.now (length table.old) }
    ensures contents { table.new ≡ written_under E.put E.SHORT (way_of judgement.entry) (list_of judgement.entry) words.now table.old }
{
    let mut guards = [UNPROTECTED; VARIABLES];
    judgement.guards(&mut guards)?;
    let count = check(words, &guards, table.len(), E::SHORT)?;
    walk::write(Sound { words }, &guards, table);
    Ok(count)
}

// The serial order by a judgement.
pub fn order(judgement: Judgement<'_>, words: &[u32], out: &mut [u32]) -> Result<u32, Refused>
    ensures reply { result ≡ order_under (way_of judgement.entry) (list_of judgement.entry) words.now (length out.old) }
    ensures contents { out.new ≡ out_under (way_of judgement.entry) (list_of judgement.entry) words.now out.old }
{
    write(judgement, words, out)
}
