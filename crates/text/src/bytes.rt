// A few bytes that lie in the value itself.
ghost use Rattle.std.specs.Prelude.{◌≡◌, ◌+◌, ◌-◌, ◌≤◌, ◌++◌, List, length, take, drop, replicate, ℕ};

use std::marker::Model;
use words::bytes::copy;

// Up to N bytes. Zeros stand behind them, so that all N can be copied, a count that the compiler knows.
#[derive(Clone, Copy)]
pub struct Bytes<const N: usize> {
    len: usize,
    padded: [u8; N],
}

// Clauses see the bytes.
impl<const N: usize> Model for Bytes<N> {
    ghost use Rattle.std.specs.Prelude.{◌≡◌, ◌-◌, ◌≤◌, ◌++◌, refl, List, length, take, drop, replicate, ℕ};
    ghost use Rattle.text.specs.BytesLaws.{bytes-back};

    ghost Value = { List ℕ };

    ghost view = { λ b. take b.len b.padded };

    ghost invariant = { λ b. (b.len ≤ N) × (length b.padded ≡ N) × (drop b.len b.padded ≡ replicate (N - b.len) 0) };

    // The bytes give the fields back, so that the value can be copied.
    ghost inverse = { λ xs. record { len = length xs; padded = xs ++ replicate (N - length xs) 0 } };

    ghost inverse_ok = { λ b h. let back = bytes-back N b.len b.padded h.0 h.1 h.2 in rw (back.0, back.1) refl };
}

impl<const N: usize> Bytes<N> {
    // The first len of the bytes.
    pub fn new(padded: [u8; N], len: usize) -> Self
        requires len_in_bounds { len ≤ N }
        requires zeros_behind { drop len padded ≡ replicate {A = ℕ} (N - len) 0 }
        ensures { result ≡ take len padded.entry }
    {
        Self { len, padded }
    }

    pub fn len(&self) -> usize
        ensures value { result ≡ length self.now }
        ensures upper_bound { result ≤ N }
    {
        self.len
    }

    pub fn as_slice(&self) -> &[u8]
        ensures { result.now ≡ self.now }
    {
        &self.padded[..self.len]
    }

    // The bytes and the zeros behind them.
    pub fn padded(&self) -> &[u8; N]
        ensures { result.now ≡ self.now ++ replicate (N - length self.now) 0 }
    {
        &self.padded
    }

    // The bytes with more behind them.
    pub fn with(&self, more: &[u8]) -> Self
        requires { length self.now + length more.now ≤ N }
        ensures { result ≡ self.now ++ more.now }
    {
        let len = self.len + more.len();
        let mut padded = self.padded;
        let all = &mut padded[..];
        copy(more, &mut all[self.len..len]);
        Bytes { len, padded }
    }
}
