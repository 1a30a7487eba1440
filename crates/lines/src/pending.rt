// The line that no line feed has ended yet.
ghost use Rattle.std.specs.Prelude.{◌≡◌, ◌↔◌, [], ◌++◌, ℕ, ◌≤◌, List, length, take, option_map, option_copied, Option, Some, IfSome, IsTrue};
ghost use Rattle.lines.specs.Lines.{kept};

use crate::put;
use std::marker::Model;

// The pending line, of up to N bytes. Of a longer one nothing is kept but that it is longer, since it is refused whatever it holds.
#[derive(Drop)]
pub struct Pending<const N: usize> {
    bytes: [u8; N],
    len: Option<usize>,
}

// Clauses see the line; none where it is longer.
impl<const N: usize> Model for Pending<N> {
    ghost use Rattle.std.specs.Prelude.{ℕ, ◌≤◌, List, take, option_map, Option, IfSome};

    ghost Value = { Option (List ℕ) };

    ghost view = { λ l. option_map (λ n. take n l.bytes) l.len };

    ghost invariant = { λ l. IfSome l.len (λ n. n ≤ N) };
}

impl<const N: usize> Pending<N> {
    pub fn new() -> Self
        ensures { result ≡ Some [] }
    {
        Pending {
            bytes: [0; N],
            len: Some(0),
        }
    }

    // The line, where it is not longer.
    pub fn line(&self) -> Option<&[u8]>
        ensures value { option_copied result ≡ self.now }
        ensures upper_bound { IfSome result (λ line. length line.now ≤ N) }
    {
        let n = self.len?;
        Some(&self.bytes[..n])
    }

    pub fn is_empty(&self) -> bool
        ensures { IsTrue result ↔ (self.now ≡ Some []) }
    {
        self.len == Some(0)
    }

    pub fn clear(&mut self)
        ensures { self.new ≡ Some [] }
    {
        self.len = Some(0);
    }

    // Puts part behind it.
    pub fn extend(&mut self, part: &[u8])
        ensures { (p : List ℕ) → self.old ≡ kept N p → self.new ≡ kept N (p ++ part.now) }
    {
        match self.len {
            Some(n) if part.len() <= N - n => {
                let all = &mut self.bytes[..];
                self.len = Some(put(all, n, part));
            }
            _ => self.len = None,
        }
    }
}
