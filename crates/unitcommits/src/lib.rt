// Where each unit of a recording commits, by a judgement: all checks, then the commits into a lent table.

#![tactic(auto)]

ghost use Rattle.std.specs.Prelude.{◌≡◌};
ghost use Rattle.guards.specs.Judgement.{way_of, list_of};
ghost use Rattle.unitcommits.specs.UnitCommits.{commits_under, commits_out_under};

use frame::{Refused, VARIABLES};
use guards::{Judgement, UNPROTECTED};

// The commits by a judgement. The reply is the number of frames.
#[tactic(auto, unfolding(crate::specs::UnitCommits::commits_under, crate::specs::UnitCommits::commits_out_under))]
pub fn commits(judgement: Judgement<'_>, words: &[u32], commits: &mut [u32]) -> Result<u32, Refused>
    ensures reply { result ≡ commits_under (way_of judgement.entry) (list_of judgement.entry) words.now }
    ensures contents { commits.new ≡ commits_out_under (way_of judgement.entry) (list_of judgement.entry) words.now commits.old }
{
    let mut guards = [UNPROTECTED; VARIABLES];
    judgement.guards(&mut guards)?;
    quick::check(words)?;
    commitplaces::write_commits(words, &guards, commits);
    Ok(words.len() as u32)
}
