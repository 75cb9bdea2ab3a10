// The records of a file one after another, each with the place where it starts.
ghost use Rattle.std.specs.Prelude.{◌≡◌, ◌+◌, ◌-◌, ◌≤◌, MatchOption};
ghost use Rattle.std.specs.Iterator.{at_most};
ghost use Rattle.sheet_spec.specs.File.{Small, records, record_start};
ghost use Rattle.sheet_encoding.specs.Places.{IsPlaced};

use crate::records::{record_at, record_count, record_length};
use sheet_spec::{Record, Shape};

// Those from record r on, which starts at a place.
#[derive(Clone, Copy)]
pub struct Places {
    pub shape: Shape,
    pub r: usize,
    pub at: usize,
    ghost small: { Small shape },
    ghost within: { r ≤ records shape },
    ghost start: { at ≡ record_start shape r },
}

// All of them.
pub fn record_places(shape: Shape) -> Places
    requires { Small shape }
    ensures shape { result.shape ≡ shape }
    ensures first { result.r ≡ 0 }
{
    Places { shape, r: 0, at: 0 }
}

impl Iterator for Places {
    type Item = (Record, usize);

    ghost remaining = { λ s. at_most (records s.shape - s.r) };

    ghost next_gives = { λ s given t. (t.shape ≡ s.shape) × MatchOption given (s.r ≡ records s.shape) (λ x. IsPlaced s.shape s.r x.0 x.1 × (t.r ≡ s.r + 1)) };

    fn next(&mut self) -> Option<(Record, usize)> {
        if self.r == record_count(self.shape) {
            return None;
        }
        let record = record_at(self.shape, self.r);
        let at = self.at;
        self.r += 1;
        self.at += record_length(self.shape, record);
        Some((record, at))
    }
}
