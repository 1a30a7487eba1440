// The MAC of a message: it has no key, so it shows damage and not who sent the message.
ghost use Rattle.std.specs.Prelude.{◌≡◌, ◌≤◌, length};
ghost use Rattle.message.specs.Message.{mac_fits};
ghost use Rattle.message.specs.Walking.{longest};

use crate::frame::{HEAD, MARKED_HEAD, is_marked};
use sm3::joined::joined_digest;
use words::bytes::same;

// Whether a marked MAC is the last four bytes of the digest.
pub fn mac_fits(message: &[u8]) -> bool
    requires in_bounds { 25 ≤ length message.now }
    requires message_len_bound { length message.now ≤ longest }
    ensures { result ≡ mac_fits message.now }
{
    if !is_marked(message[1]) {
        return true;
    }
    let digest = joined_digest(&message[0..HEAD], &message[MARKED_HEAD..]);
    same(&message[HEAD..MARKED_HEAD], &digest[28..32])
}
