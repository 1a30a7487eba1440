// The cut (6.3): the sum of an output's words, and its last decimal digits.
ghost use Rattle.std.specs.Prelude.{◌≡◌, ◌+◌, ◌%◌, ◌^◌, ◌≤◌, ◌++◌, length, drop};
ghost use Rattle.otp.specs.Password.{decimals};

use sm4::Quad;

// The sum of the words of an output of four, without the carry.
pub(crate) fn cut_words(w: Quad) -> u32
    ensures { result ≡ (w.a + w.b + w.c + w.d) % 2 ^ 32 }
{
    w.a.wrapping_add(w.b).wrapping_add(w.c).wrapping_add(w.d)
}

// The last n decimal digits of x, at the front of out. Ten to the n is never formed.
pub(crate) fn put_decimals(x: u32, n: usize, out: &mut [u8])
    requires { n ≤ length out.old }
    ensures { out.new ≡ decimals n x ++ drop n out.old }
{
    let mut rest = x;
    for i in (0..n).rev() {
        out[i] = b'0' + (rest % 10) as u8;
        rest /= 10;
    }
}
