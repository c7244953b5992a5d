// How far each frame of a recording moves to its place in the serial order, by a judgement.

#![tactic(auto)]

ghost use Rattle.std.specs.Prelude.{◌≡◌, length};
ghost use Rattle.guards.specs.Judgement.{way_of, list_of};
ghost use Rattle.moves.specs.Moves.{moves_under, moves_out_under};

use frame::Refused;
use guards::Judgement;

// The displacements by a judgement.
pub fn moves(judgement: Judgement<'_>, words: &[u32], moves: &mut [i32]) -> Result<u32, Refused>
    ensures reply { result ≡ moves_under (way_of judgement.entry) (list_of judgement.entry) words.now (length moves.old) }
    ensures contents { moves.new ≡ moves_out_under (way_of judgement.entry) (list_of judgement.entry) words.now moves.old }
{
    order::write(judgement, words, moves)
}
