// Text written into a lent buffer, as far as there is room.

#![tactic(auto)]

ghost use Rattle.std.specs.Prelude.{◌≡◌, [], ◌∷◌};
ghost use Rattle.frame.specs.Limits.{lock_count};
ghost use Rattle.output.specs.Output.{Over, MovedTo, Appended, decimal, lock_text, listed, locks_text};

use frame::{ALL_LOCKS, LOCKS};

// The most digits of a 64-bit number.
const DIGITS: usize = 20;

// The first number that names no lock.
const LOCK_END: u64 = LOCKS as u64;

// A lent buffer, and the place that the next byte goes to.
#[derive(Drop)]
pub struct Text<'a> {
    buffer: &'a mut [u8],
    at: usize,
}

impl<'a> Text<'a> {
    // No text yet.
    pub fn over(buffer: &'a mut [u8]) -> Text<'a>
        ensures { Over buffer.entry result }
    {
        Text { buffer, at: 0 }
    }

    // The place that the next byte goes to: how many bytes of the buffer have text, where it was not moved.
    pub fn len(&self) -> usize
        ensures { result ≡ self.now.at }
    {
        self.at
    }

    // The next byte goes to a place of the buffer, before or behind the text; behind the buffer's end none is written.
    pub fn move_to(&mut self, place: usize)
        ensures { MovedTo self.old self.new place }
    {
        let Text { at, .. } = self;
        *at = place;
    }

    pub fn put_byte(&mut self, byte: u8)
        ensures { Appended self.old self.new (byte ∷ []) }
    {
        if self.at < self.buffer.len() {
            self.buffer[self.at] = byte;
            self.at += 1;
        }
    }

    pub fn put_text(&mut self, text: &[u8])
        ensures { Appended self.old self.new text.now }
    {
        for byte in text {
            self.put_byte(*byte);
        }
    }

    // A number in decimal.
    pub fn put_decimal(&mut self, number: u64)
        ensures { Appended self.old self.new (decimal number) }
    {
        if number == 0 {
            return self.put_byte(b'0');
        }
        let mut digits = [0u8; DIGITS];
        let mut start = DIGITS;
        let mut rest = number;
        while 0 < rest && 0 < start {
            start -= 1;
            digits[start] = (rest % 10) as u8 + b'0';
            rest /= 10;
        }
        self.put_text(&digits[start..])
    }

    // A lock, which is bit 0 of a set, where it is in the set, and a comma where others follow.
    fn put_lock(&mut self, lock: u64, set: u64)
        ensures { Appended self.old self.new (lock_text lock set) }
    {
        if set % 2 == 0 {
            return;
        }
        self.put_decimal(lock);
        if set / 2 != 0 {
            self.put_text(b", ");
        }
    }

    // The locks of a set, listed.
    fn put_listed(&mut self, set: u64)
        ensures { Appended self.old self.new (listed lock_count 0 set) }
    {
        let mut rest = set;
        for lock in 0..LOCK_END {
            self.put_lock(lock, rest);
            rest /= 2;
        }
    }

    // A set of locks.
    #[tactic(auto, unfolding(crate::specs::Output::locks_text, crate::specs::Output::bytes))]
    pub fn put_locks(&mut self, set: u64)
        ensures { Appended self.old self.new (locks_text set) }
    {
        match set {
            0 => self.put_text(b"none"),
            ALL_LOCKS => self.put_text(b"all 64"),
            _ => self.put_listed(set),
        }
    }
}
