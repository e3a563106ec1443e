//! Numbers in lines, written without memory.
ghost use Rattle.std.specs.Prelude.{◌≡◌, ◌≤◌, List, ℕ, drop};
ghost use Rattle.std.specs.Fmt.{decimal};

use std::marker::Model;

// As many digits as the largest number has.
const MOST_DIGITS: usize = 20;

/// The decimal digits of a number.
#[derive(Drop)]
pub struct Digits {
    room: [u8; MOST_DIGITS],
    start: usize,
}

impl Model for Digits {
    ghost Value = { List ℕ };

    ghost view = { λ d. drop d.start d.room };

    ghost invariant = { λ d. d.start ≤ 20 };
}

impl Digits {
    /// The digits of a number: no zeros in front, and one digit of 0.
    pub fn of(number: u64) -> Digits
        ensures { result ≡ decimal number }
    {
        let mut room = [0u8; MOST_DIGITS];
        let mut start = MOST_DIGITS;
        let mut rest = number;
        'writing: while rest >= 10 {
            start -= 1;
            room[start] = b'0' + (rest % 10) as u8;
            rest /= 10;
        }
        start -= 1;
        room[start] = b'0' + rest as u8;
        Digits { room, start }
    }

    /// The digits as bytes, the first in front.
    pub fn bytes(&self) -> &[u8]
        ensures { result.now ≡ self.now }
    {
        &self.room[self.start..]
    }
}
