// Four SM3 hashes of messages of one block side by side, for the proved layers above: they give the lengths that these functions require.
#![tactic(auto)]

mod messages;
mod rounds;
mod values;

ghost use Rattle.std.specs.Prelude.{◌≡◌};
ghost use Rattle.sm3_lanes.specs.Lanes.{lane_sums};

pub use messages::{add_block, put_four};
use rounds::rounds;
use sm3::start;
use values::{spread, sum_at};

// The sums of the words of the four hashes, without the carry. The words of the messages' blocks have been put there.
pub fn four_sums(w: &mut [u32; 272]) -> [u32; 4]
    ensures { result ≡ lane_sums w.old }
{
    let v = start();
    let mut s = spread(v);
    rounds::<true, true>(&mut s, w, 0, 4);
    rounds::<false, true>(&mut s, w, 4, 13);
    rounds::<false, false>(&mut s, w, 13, 16);
    [
        sum_at(&s, 0, v),
        sum_at(&s, 1, v),
        sum_at(&s, 2, v),
        sum_at(&s, 3, v),
    ]
}
