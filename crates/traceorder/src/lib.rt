// The functions that C programs call, by way of crate traceorder_c: equality of recordings, the serial order, displacements, and commits.

#![tactic(auto)]

ghost use Rattle.std.specs.Prelude.{◌≡◌, [], length};
ghost use Rattle.equal.specs.Equal.{equal_reply};
ghost use Rattle.guards.specs.Judgement.{Declared, Inferred};
ghost use Rattle.order.specs.Order.{order_under, out_under};
ghost use Rattle.moves.specs.Moves.{moves_under, moves_out_under};
ghost use Rattle.unitcommits.specs.UnitCommits.{commits_under, commits_out_under};
ghost use Rattle.traceorder.specs.Answers.{packed_side, equal_answer, order_answer};

use equal::{RefusedSide, Side};
use guards::Judgement;

// A refusal of one side of a comparison as one number.
fn pack_side(refused: RefusedSide) -> u64
    ensures { result ≡ packed_side refused.side refused.refused }
{
    match refused.side {
        Side::Left => reply::pack(refused.refused),
        Side::Right => reply::pack(refused.refused) + 0x100_0000_0000,
    }
}

// Whether two recordings are equal.
pub fn trace_equal(left: &[u32], right: &[u32]) -> u64
    ensures { result ≡ equal_answer (equal_reply left.now right.now) }
{
    match equal::equal(left, right) {
        Ok(true) => 1,
        Ok(false) => 0,
        Err(refused) => pack_side(refused),
    }
}

// The serial order with declared guards.
pub fn trace_serial_declared(list: &[u8], words: &[u32], out: &mut [u32]) -> u64
    ensures reply { result ≡ order_answer (order_under Declared list.now words.now (length out.old)) }
    ensures contents { out.new ≡ out_under Declared list.now words.now out.old }
{
    reply::answer(order::order(Judgement::Declared(list), words, out))
}

// The serial order with inferred guards.
pub fn trace_serial_inferred(words: &[u32], out: &mut [u32]) -> u64
    ensures reply { result ≡ order_answer (order_under Inferred [] words.now (length out.old)) }
    ensures contents { out.new ≡ out_under Inferred [] words.now out.old }
{
    reply::answer(order::order(Judgement::Inferred, words, out))
}

// How far each frame moves, with declared guards.
pub fn trace_moves_declared(list: &[u8], words: &[u32], moves: &mut [i32]) -> u64
    ensures reply { result ≡ order_answer (moves_under Declared list.now words.now (length moves.old)) }
    ensures contents { moves.new ≡ moves_out_under Declared list.now words.now moves.old }
{
    reply::answer(moves::moves(Judgement::Declared(list), words, moves))
}

// How far each frame moves, with inferred guards.
pub fn trace_moves_inferred(words: &[u32], moves: &mut [i32]) -> u64
    ensures reply { result ≡ order_answer (moves_under Inferred [] words.now (length moves.old)) }
    ensures contents { moves.new ≡ moves_out_under Inferred [] words.now moves.old }
{
    reply::answer(moves::moves(Judgement::Inferred, words, moves))
}

// Where each unit commits, with declared guards.
pub fn trace_commits_declared(list: &[u8], words: &[u32], commits: &mut [u32]) -> u64
    ensures reply { result ≡ order_answer (commits_under Declared list.now words.now) }
    ensures contents { commits.new ≡ commits_out_under Declared list.now words.now commits.old }
{
    reply::answer(unitcommits::commits(Judgement::Declared(list), words, commits))
}

// Where each unit commits, with inferred guards.
pub fn trace_commits_inferred(words: &[u32], commits: &mut [u32]) -> u64
    ensures reply { result ≡ order_answer (commits_under Inferred [] words.now) }
    ensures contents { commits.new ≡ commits_out_under Inferred [] words.now commits.old }
{
    reply::answer(unitcommits::commits(Judgement::Inferred, words, commits))
}
