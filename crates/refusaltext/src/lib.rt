// Refusals in words.

#![tactic(auto)]

ghost use Rattle.std.specs.Prelude.{◌≡◌};
ghost use Rattle.output.specs.Output.{Appended, bytes};
ghost use Rattle.refusaltext.specs.RefusalText.{refusal_sentence, refusal_text};

use frame::{Refusal, Refused};
use output::Text;
use phrase::Source;

// The sentence of a refusal, and whether its frame is known.
fn refusal_sentence(reason: Refusal, known: bool) -> &'static [u8]
    ensures { result.now ≡ bytes (refusal_sentence reason known) }
{
    match (reason, known) {
        (Refusal::Line, _) =>
            b"refused: number 1, @ of % is not eight digits 0-9 A-F and one LF; write it so, without blanks, lower case or CR, and end the last line.\n",
        (Refusal::TooLong, _) => b"refused: number 2, % has more than # lines; cut it down to #.\n",
        (Refusal::WordBuffer, _) =>
            b"refused: number 3, the word buffer has fewer than # words; lend one for each line.\n",
        (Refusal::Operation, _) =>
            b"refused: number 4, @ of % has an operation other than 01 to 06; mend its digits 1 and 2.\n",
        (Refusal::Thread, _) =>
            b"refused: number 5, @ of % has a thread above 1F; mend its digits 3 and 4.\n",
        (Refusal::Object, _) =>
            b"refused: number 6, @ of % has an object out of range; locks go up to 003F, variables up to 03FF, and a begin or an end has 0000.\n",
        (Refusal::LockTaken, true) =>
            b"refused: number 7, @ of %, * by thread &, takes a lock that another thread holds; it has to be released before this line.\n",
        (Refusal::LockTaken, false) =>
            b"refused: number 7, @ of % takes a lock that another thread holds; it has to be released before this line.\n",
        (Refusal::LockNotHeld, true) =>
            b"refused: number 8, @ of %, * by thread &, lets go a lock that this thread does not hold; acquire it first or drop the line.\n",
        (Refusal::LockNotHeld, false) =>
            b"refused: number 8, @ of % lets go a lock that its thread does not hold; acquire it first or drop the line.\n",
        (Refusal::TooDeep, true) =>
            b"refused: number 9, @ of % is a begin inside 15 open blocks of thread &; nest at most 15.\n",
        (Refusal::TooDeep, false) =>
            b"refused: number 9, @ of % is a begin inside 15 open blocks of its thread; nest at most 15.\n",
        (Refusal::NoOpenBlock, true) =>
            b"refused: number 10, @ of % is an end where thread & has no open block; add its begin or drop the line.\n",
        (Refusal::NoOpenBlock, false) =>
            b"refused: number 10, @ of % is an end where its thread has no open block; add its begin or drop the line.\n",
        (Refusal::GuardRange, _) =>
            b"refused: number 11, @ of % names a variable above 03FF or a lock above 003F; mend the number.\n",
        (Refusal::GuardRepeated, _) =>
            b"refused: number 12, @ of % names a variable that an earlier line names; keep one of the two.\n",
        (Refusal::Irreducible, _) =>
            b"refused: number 13, % is not reducible, so there is no serial order; @ goes wrong, and explain says why.\n",
        (Refusal::OpenBlock, _) =>
            b"refused: number 14, the block that begins at @ of % is open at the end; add its end.\n",
        (Refusal::OutputBuffer, _) =>
            b"refused: number 15, the output has fewer than # words; lend one for each frame.\n",
        (Refusal::SetTable, _) =>
            b"refused: number 16, the table of candidate sets has fewer than # entries; lend #.\n",
        (Refusal::LineBuffer, _) =>
            b"refused: number 17, the line buffer has fewer than # bytes; lend #.\n",
        (Refusal::VerdictLine, _) =>
            b"refused: number 18, this is no verdict line: that has 32 digits 0-9 A-F, the first two 00 to 04 or 81 to FF, and one LF; hand it on as it was written.\n",
        (Refusal::TextBuffer, _) =>
            b"refused: number 19, the text has fewer than # bytes from the given place on; lend them.\n",
        (Refusal::TooOften, true) =>
            b"refused: number 20, @ of %, * by thread &, takes a lock that this thread holds 15 times already; hold it at most 15 times.\n",
        (Refusal::TooOften, false) =>
            b"refused: number 20, @ of % takes a lock that its thread holds 15 times already; hold it at most 15 times.\n",
        (Refusal::MovesBuffer, _) =>
            b"refused: number 21, the list of displacements has fewer than # numbers; lend one for each frame.\n",
    }
}

// A refusal in words.
pub fn explain_refusal(out: &mut Text<'_>, source: Source, words: &[u32], refused: Refused)
    ensures { Appended out.old out.new (refusal_text source words.now refused) }
{
    let facts = facts::place_facts(source, words, refused.place);
    let sentence = refusal_sentence(refused.reason, sentence::known(facts.frame));
    sentence::say(out, sentence, facts);
}
