ghost use Rattle.std.specs.Prelude.{◌≡◌, ◌≤◌, ◌+◌, ◌∷◌, ◌++◌, [], length, IfOk};
ghost use Rattle.std.specs.Fmt.{decimal};

use itoa::write_digits;
use std::alloc::{AllocError, Global};
use std::marker::Model;

// A line of up to four words with a number of up to twenty digits behind each fits.
const ROOM: usize = 120;

/// A line that is written from its end to its beginning, so that digits are put where they stay. Contracts see what stands there.
#[derive(Drop)]
pub struct Written {
    bytes: [u8; ROOM],
    start: usize,
}

impl Model for Written {
    ghost use Rattle.std.specs.Prelude.{ℕ, ◌≤◌, List, drop};

    ghost Value = { List ℕ };

    ghost view = { λ w. drop w.start w.bytes };

    ghost invariant = { λ w. w.start ≤ 120 };
}

impl Written {
    /// A line's end.
    pub fn end() -> Written
        ensures { result ≡ 10 ∷ [] }
    {
        Written {
            bytes: [b'\n'; ROOM],
            start: ROOM - 1,
        }
    }

    /// Puts words before what stands there.
    pub fn put(&mut self, words: &[u8])
        requires { length words.now + length self.old ≤ 120 }
        ensures { self.new ≡ words.now ++ self.old }
    {
        let start = self.start - words.len();
        self.bytes[start..self.start].copy_from_slice(words);
        self.start = start;
    }

    /// Puts words and a number before what stands there.
    pub fn put_number(&mut self, words: &[u8], number: u64)
        requires { length words.now + 20 + length self.old ≤ 120 }
        ensures text { self.new ≡ words.now ++ decimal number ++ self.old }
        ensures short { length self.new ≤ length words.now + 20 + length self.old }
    {
        self.start = write_digits(number, &mut self.bytes, self.start);
        self.put(words);
    }

    /// The whole line.
    pub fn to_vec(&self, alloc: Global) -> Result<Vec<u8>, AllocError>
        ensures { IfOk result (λ line. line.items ≡ self.now) }
    {
        self.bytes[self.start..].to_vec(alloc)
    }
}
