// 32-bit words.
ghost use Rattle.std.specs.Prelude.{◌≡◌, ◌<◌};
ghost use Rattle.words.specs.Words.{◌⋘◌};

// x rotated left by n bits.
pub fn rotate_left(x: u32, n: u32) -> u32
    requires n_nonzero { 0 < n }
    requires n_bound { n < 32 }
    ensures { result ≡ x ⋘ n }
{
    x.rotate_left(n)
}
