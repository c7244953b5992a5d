// Functions that C programs call: equality, the serial order, the displacements and the commits. Each hands its arguments to the function of the
// same name in crate traceorder, and promises what that one does.

#![tactic(auto)]

ghost use Rattle.std.specs.Prelude.{◌≡◌, [], length};
ghost use Rattle.equal.specs.Equal.{equal_reply};
ghost use Rattle.guards.specs.Judgement.{Declared, Inferred};
ghost use Rattle.order.specs.Order.{order_under, out_under};
ghost use Rattle.moves.specs.Moves.{moves_under, moves_out_under};
ghost use Rattle.unitcommits.specs.UnitCommits.{commits_under, commits_out_under};
ghost use Rattle.traceorder.specs.Answers.{equal_answer, order_answer};

// Whether two recordings are equal.
#[unsafe(no_mangle)]
pub extern "C" fn trace_equal(left: &[u32], right: &[u32]) -> u64
    ensures { result ≡ equal_answer (equal_reply left.now right.now) }
{
    traceorder::trace_equal(left, right)
}

// The serial order with declared guards.
#[unsafe(no_mangle)]
pub extern "C" fn trace_serial_declared(list: &[u8], words: &[u32], out: &mut [u32]) -> u64
    ensures reply { result ≡ order_answer (order_under Declared list.now words.now (length out.old)) }
    ensures contents { out.new ≡ out_under Declared list.now words.now out.old }
{
    traceorder::trace_serial_declared(list, words, out)
}

// The serial order with inferred guards.
#[unsafe(no_mangle)]
pub extern "C" fn trace_serial_inferred(words: &[u32], out: &mut [u32]) -> u64
    ensures reply { result ≡ order_answer (order_under Inferred [] words.now (length out.old)) }
    ensures contents { out.new ≡ out_under Inferred [] words.now out.old }
{
    traceorder::trace_serial_inferred(words, out)
}

// How far each frame moves, with declared guards.
#[unsafe(no_mangle)]
pub extern "C" fn trace_moves_declared(list: &[u8], words: &[u32], moves: &mut [i32]) -> u64
    ensures reply { result ≡ order_answer (moves_under Declared list.now words.now (length moves.old)) }
    ensures contents { moves.new ≡ moves_out_under Declared list.now words.now moves.old }
{
    traceorder::trace_moves_declared(list, words, moves)
}

// How far each frame moves, with inferred guards.
#[unsafe(no_mangle)]
pub extern "C" fn trace_moves_inferred(words: &[u32], moves: &mut [i32]) -> u64
    ensures reply { result ≡ order_answer (moves_under Inferred [] words.now (length moves.old)) }
    ensures contents { moves.new ≡ moves_out_under Inferred [] words.now moves.old }
{
    traceorder::trace_moves_inferred(words, moves)
}

// Where each unit commits, with declared guards.
#[unsafe(no_mangle)]
pub extern "C" fn trace_commits_declared(list: &[u8], words: &[u32], commits: &mut [u32]) -> u64
    ensures reply { result ≡ order_answer (commits_under Declared list.now words.now) }
    ensures contents { commits.new ≡ commits_out_under Declared list.now words.now commits.old }
{
    traceorder::trace_commits_declared(list, words, commits)
}

// Where each unit commits, with inferred guards.
#[unsafe(no_mangle)]
pub extern "C" fn trace_commits_inferred(words: &[u32], commits: &mut [u32]) -> u64
    ensures reply { result ≡ order_answer (commits_under Inferred [] words.now) }
    ensures contents { commits.new ≡ commits_out_under Inferred [] words.now commits.old }
{
    traceorder::trace_commits_inferred(words, commits)
}
