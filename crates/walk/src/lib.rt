// The serial order of a recording, unit by unit: a walk that writes each unit where it commits, its words or its displacements.

#![tactic(auto)]

ghost use Rattle.std.specs.Prelude.{◌≡◌, ◌+◌, ◌-◌, ◌^◌, ◌<◌, ◌≤◌, ℕ, List, length, take, drop};
ghost use Rattle.std.proofs.Common.{rules};
ghost use Rattle.std.proofs.lemmas.Grind.{common_steps};
ghost use Rattle.std.proofs.lemmas.List.{drop-set-add};
ghost use Rattle.frame.specs.Limits.{most_frames};
ghost use Rattle.frame.specs.declared.Refusal.{Refusal};
ghost use Rattle.frame.specs.declared.Refusal.TheVariants.{OutputBuffer, MovesBuffer};
ghost use Rattle.serial.specs.Walk.{unit_of, walk_of};
ghost use Rattle.displacement.specs.Displacement.{places};
ghost use Rattle.walk.specs.Laid.{put_word, put_move, laid};

use commit::Units;
use displacement::displacement;
use frame::{Refusal, Thread, VARIABLES};
use soundness::Sound;

// What a table holds of each frame.
pub trait Entry: Copy {
    // The refusal of a table that is shorter than the recording.
    const SHORT: Refusal;

    ghost SHORT: { Refusal };

    // Whether a table of a length has room for a frame that stands at a place of the order and is recorded at another.
    ghost Fits: { ℕ → ℕ → ℕ → Type 0 };

    ghost put: { ℕ → ℕ → ℕ → List Self → List Self };

    ghost Start: { ℕ → ℕ };

    // From which place on a table is lent for a unit that stands in the order from a place on.
    fn start(order: usize) -> usize
        ensures { result ≡ Start order };

    // The frame at a place of the order, recorded at another, and its word.
    fn put(table: &mut [Self], order: usize, place: usize, word: u32)
        requires { Fits order place (length table.old) }
        ensures { table.new ≡ put order place word table.old };

    ghost enough: { (o p n l : ℕ) → n ≤ most_frames → n ≤ l → o < n → p < n → Fits o p l };

    ghost behind_fits: { (o p l : ℕ) → l < 2 ^ 64 → Fits o p l → o + 1 < 2 ^ 64 };

    ghost start_low: { (k : ℕ) → Start k ≤ k };

    ghost start_fits: { (o p l : ℕ) → Fits o p l → Start (o + 1) ≤ l };

    // In the part that is lent a frame has room, and is put as in the table; what stands before the part is left.
    ghost part_fits: { (k o p l : ℕ) → Fits (Start k + o) p l → Fits o p (l - Start k) };

    ghost part_put: { (k o p w : ℕ) (t : List Self) → drop (Start k) (put (Start k + o) p w t) ≡ put o p w (drop (Start k) t) };

    ghost part_left: { (k o p w : ℕ) (t : List Self) → take (Start k) (put (Start k + o) p w t) ≡ take (Start k) t };
}

// A word stands at its frame's place of the order: for a unit the rest of the table is lent, from the running place on.
impl Entry for u32 {
    const SHORT: Refusal = Refusal::OutputBuffer;

    ghost SHORT = { OutputBuffer };

    ghost Fits = { λ o p l. o < l };

    ghost put = { put_word };

    ghost Start = { λ k. k };

    ghost enough = { λ o p n l few long order place. Prim.search rules };

    ghost behind_fits = { λ o p l long fits. Prim.search rules };

    ghost start_low = { λ k. Prim.search rules };

    ghost start_fits = { λ o p l fits. Prim.search rules };

    ghost part_fits = { λ k o p l fits. Prim.search rules };

    ghost part_put = { λ k o p w t. drop-set-add k t o w };

    ghost part_left = { λ k o p w t. Prim.search (rules, common_steps) };

    fn start(order: usize) -> usize {
        order
    }

    fn put(table: &mut [u32], order: usize, _place: usize, word: u32) {
        table[order] = word;
    }
}

// A displacement stands at its frame's place of the recording, and those of a unit all over the table: it is lent whole.
impl Entry for i32 {
    const SHORT: Refusal = Refusal::MovesBuffer;

    ghost SHORT = { MovesBuffer };

    ghost Fits = { λ o p l. (p < l) × (o < most_frames) × (p < most_frames) };

    ghost put = { put_move };

    ghost Start = { λ k. 0 };

    ghost enough = { λ o p n l few long order place. Prim.search rules };

    ghost behind_fits = { λ o p l long fits. Prim.search rules };

    ghost start_low = { λ k. Prim.search rules };

    ghost start_fits = { λ o p l fits. Prim.search rules };

    ghost part_fits = { λ k o p l fits. Prim.search rules };

    ghost part_put = { λ k o p w t. Prim.search (rules, common_steps) };

    ghost part_left = { λ k o p w t. Prim.search (rules, common_steps) };

    fn start(_order: usize) -> usize {
        0
    }

    fn put(table: &mut [i32], order: usize, place: usize, _word: u32) {
        table[place] = displacement(order, place);
    }
}

// The frames of the unit of a thread that starts at a place, put into a table, in the order from a place on; the place behind them there. Of the
// words of other threads only the thread is looked at.
pub fn write_unit<E: Entry>(
    sound: Sound<'_>,
    begin: usize,
    thread: Thread,
    table: &mut [E],
    order: usize,
) -> usize
    requires { (o p : ℕ) → o < order + length (unit_of sound.words.now (places sound.words.now) begin thread) → p < length sound.words.now → E.Fits o p (length table.old) }
    ensures behind { result ≡ order + length (unit_of sound.entry.words.now (places sound.entry.words.now) begin thread) }
    ensures contents { table.new ≡ laid E.put sound.entry.words.now order (unit_of sound.entry.words.now (places sound.entry.words.now) begin thread) table.old }
{
    let words = sound.words;
    let mut at = order;
    let mut depth = 0;
    for place in begin..words.len() {
        let word = words[place];
        if word / 0x10000 % 0x100 == u32::from(thread.0) {
            E::put(table, at, place, word);
            at += 1;
            depth = serial::depth_by(word / 0x1000000, depth);
            if depth == 0 {
                return at;
            }
        }
    }
    at
}

// The units of a sound recording, each put into a table where the one before stopped. Of the table a unit is lent what its frames can stand in.
pub fn write<E: Entry>(sound: Sound<'_>, guards: &[u8; VARIABLES], table: &mut [E])
    requires { (o p : ℕ) → o < length (walk_of guards.now sound.words.now (places sound.words.now)) → p < length sound.words.now → E.Fits o p (length table.old) }
    ensures { table.new ≡ laid E.put sound.entry.words.now 0 (walk_of guards.now sound.entry.words.now (places sound.entry.words.now)) table.old }
{
    let mut units = Units::new();
    let mut order = 0;
    for place in 0..sound.words.len() {
        let frame = sound.frame(place);
        if let Some(begin) = units.visit(guards, place as u32, frame) {
            let from = E::start(order);
            let rest = &mut table[from..];
            order = from + write_unit(sound, begin as usize, frame.thread, rest, order - from);
        }
    }
}
