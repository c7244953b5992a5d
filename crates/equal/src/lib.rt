// Whether two recordings are equal up to exchanges of independent neighbours: the frames of each thread are matched in their order.

#![tactic(auto)]

ghost use Rattle.std.specs.Prelude.{◌≡◌};
ghost use Rattle.equal.specs.Equal.{equal_words, refusal_of, equal_reply};

use frame::{Refused, THREADS};
use matching::Lasts;
use soundness::Sound;

#[derive(Clone, Copy)]
pub enum Side {
    Left,
    Right,
}

// The refusal of one side of a comparison.
#[derive(Clone, Copy)]
pub struct RefusedSide {
    pub side: Side,
    pub refused: Refused,
}

impl Side {
    fn refusal(self, refused: Refused) -> RefusedSide
        ensures { result ≡ refusal_of self refused }
    {
        RefusedSide {
            side: self,
            refused,
        }
    }
}

// Whether two sound recordings are equal. Each frame of the left is matched with the next of its thread in the right. These must be the
// same, and two frames that clash must be matched in the same order.
fn same(left: Sound<'_>, right: Sound<'_>) -> bool
    ensures { result ≡ equal_words left.entry.words.now right.entry.words.now }
{
    if left.words.len() != right.words.len() {
        return false;
    }
    let mut next = [0; THREADS];
    let mut lasts = Lasts::new();
    for i in 0..left.words.len() {
        let frame = left.frame(i);
        let t = usize::from(frame.thread.0);
        let Some(place) = matching::find(right, next[t], frame.thread) else {
            return false;
        };
        if right.words[place] != left.words[i] {
            return false;
        }
        if !lasts.note(frame.action, (place + 1) as u32) {
            return false;
        }
        next[t] = place + 1;
    }
    true
}

// The left recording is checked, then the right, then they are compared.
pub fn equal(left: &[u32], right: &[u32]) -> Result<bool, RefusedSide>
    ensures { result ≡ equal_reply left.now right.now }
{
    let left = quick::sound(left).map_err(|refused| Side::Left.refusal(refused))?;
    let right = quick::sound(right).map_err(|refused| Side::Right.refusal(refused))?;
    Ok(same(left, right))
}
