// A violation in words: what happened, the thread's block, the frame, why it goes wrong, and what to do.

#![tactic(auto)]

ghost use Rattle.std.specs.Prelude.{◌≡◌};
ghost use Rattle.output.specs.Output.{Appended, bytes};
ghost use Rattle.violationtext.specs.ViolationText.{kind_sentence, block_sentence, frame_sentence, why_sentence, remedy_sentence, violation_text};

use output::Text;
use reply::{Kind, Violation};
use sentence::{Facts, say};

// What happened.
fn kind_sentence(kind: Kind) -> &'static [u8]
    ensures { result.now ≡ bytes (kind_sentence kind) }
{
    match kind {
        Kind::GuardNotHeld => b"violation: kind 1, guard not held, by thread &.\n",
        Kind::UnprotectedAfterCommit =>
            b"violation: kind 2, unprotected access after commit, by thread &.\n",
        Kind::AcquireAfterCommit => b"violation: kind 3, acquire after commit, by thread &.\n",
        Kind::SetEmptied => b"violation: kind 4, candidate set emptied, by thread &.\n",
    }
}

// The thread's block. Here and below: whether the frame is known.
fn block_sentence(begin: Option<u32>, commit: Option<u32>, known: bool) -> &'static [u8]
    ensures { result.now ≡ bytes (block_sentence begin commit known) }
{
    match (begin, commit) {
        (None, _) => b"  The thread is in no block.\n",
        (Some(_), None) => b"  The block begins at < and has not committed.\n",
        (Some(_), Some(_)) if known => b"  The block begins at <.\n  It commits at >: ^.\n",
        (Some(_), Some(_)) => b"  The block begins at <.\n  It commits at >.\n",
    }
}

fn frame_sentence(known: bool) -> &'static [u8]
    ensures { result.now ≡ bytes (frame_sentence known) }
{
    if known {
        b"  It goes wrong at @: *.\n"
    } else {
        b"  It goes wrong at @.\n"
    }
}

// Why it goes wrong.
fn why_sentence(kind: Kind, known: bool) -> &'static [u8]
    ensures { result.now ≡ bytes (why_sentence kind known) }
{
    match (kind, known) {
        (Kind::GuardNotHeld, true) =>
            b"  The guard of variable $ is lock ~, and thread & does not hold it: another thread may access the variable at the same time.\n",
        (Kind::GuardNotHeld, false) =>
            b"  The guard of the variable is lock ~, and thread & does not hold it: another thread may access the variable at the same time.\n",
        (Kind::UnprotectedAfterCommit, true) =>
            b"  Variable $ has no guard: another thread may change it, or what the block accessed before, between these lines.\n",
        (Kind::UnprotectedAfterCommit, false) =>
            b"  The variable has no guard: another thread may change it, or what the block accessed before, between these lines.\n",
        (Kind::AcquireAfterCommit, true) =>
            b"  A block takes no new lock after its commit: between these lines another thread may change what the block has read or written.\n",
        (Kind::AcquireAfterCommit, false) =>
            b"  A block takes no new lock after its commit, here lock ~: between these lines another thread may change what the block has read or written.\n",
        (Kind::SetEmptied, true) =>
            b"  Locks left that may guard variable $: ~. Thread & holds none of them, so no one lock guards every access of the variable.\n",
        (Kind::SetEmptied, false) =>
            b"  Locks left that may guard the variable: ~. Thread & holds none of them, so no one lock guards every access of the variable.\n",
    }
}

// What to do.
fn remedy_sentence(kind: Kind) -> &'static [u8]
    ensures { result.now ≡ bytes (remedy_sentence kind) }
{
    match kind {
        Kind::GuardNotHeld =>
            b"  To mend it, hold lock ~ at this line; in a block, take it before the commit.\n",
        Kind::UnprotectedAfterCommit =>
            b"  To mend it, end the block before this line, or name a guard of the variable and hold it at each access.\n",
        Kind::AcquireAfterCommit =>
            b"  To mend it, take the lock before the commit and hold each lock until the block ends, or end the block before this line.\n",
        Kind::SetEmptied => b"  To mend it, hold one lock at every access of the variable.\n",
    }
}

pub fn say_violation(out: &mut Text<'_>, facts: Facts, violation: Violation)
    ensures { Appended out.old out.new (violation_text facts violation) }
{
    let known = sentence::known(facts.frame);
    say(out, kind_sentence(violation.kind), facts);
    say(
        out,
        block_sentence(violation.begin, violation.commit, known),
        facts,
    );
    say(out, frame_sentence(known), facts);
    say(out, why_sentence(violation.kind, known), facts);
    say(out, remedy_sentence(violation.kind), facts);
}
