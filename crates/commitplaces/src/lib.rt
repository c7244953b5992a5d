// Where each unit of a recording commits, by the place where it starts.

#![tactic(auto)]

ghost use Rattle.std.specs.Prelude.{◌≡◌};
ghost use Rattle.commitplaces.specs.CommitPlaces.{commit_places};

use commit::Units;
use frame::{Frame, MOST, VARIABLES};

// Where each unit commits, plus 1, at the place of its start in a table; the other entries are left. Nothing of a recording that is too long.
pub fn write_commits(words: &[u32], guards: &[u8; VARIABLES], commits: &mut [u32])
    ensures { commits.new ≡ commit_places guards.now words.now commits.old }
{
    if MOST < words.len() {
        return;
    }
    let mut units = Units::new();
    for i in 0..words.len() {
        let Ok(frame) = Frame::try_from(words[i]) else {
            return;
        };
        if let Some(begin) = units.visit(guards, i as u32, frame) {
            let start = begin as usize;
            if start < commits.len() {
                commits[start] = i as u32 + 1;
            }
        }
    }
}
