// A log as text, piece after piece. How it stands between two pieces is C's to keep.
ghost use Rattle.std.specs.Prelude.{◌≡◌, ◌≢◌, ◌+◌, ◌≤◌, ◌<◌, length};
ghost use Rattle.answers.specs.declared.TheConstants.{LONGEST};
ghost use Rattle.feed.specs.Feeding.{fed};
ghost use Rattle.host.specs.Faces.{flagged, standing_of};
ghost use Rattle.host.specs.Left.{fed_left, fed_faced};

use crate::faces::{FedFace, fed_face, flagged};
use feed::{Standing, feed};

fn standing_of(opened: u32, skipping: u32) -> Standing
    ensures { result ≡ standing_of opened skipping }
{
    Standing {
        opened: flagged(opened),
        skipping: flagged(skipping),
    }
}

// The lines of a piece, answered.
#[unsafe(no_mangle)]
pub extern "C" fn telvrang_feed_lent(
    input: &[u8],
    at_end: u32,
    opened: u32,
    skipping: u32,
    book: &mut [u32],
    sums: &mut [i64],
    out: &mut [u8],
) -> FedFace
    ensures fed { fed_left result book.new sums.new out.new ≡ fed_faced (fed (flagged at_end) (standing_of opened skipping) input.now book.old sums.old out.old) }
    ensures taken { result.taken ≤ length input.now }
    ensures wrote { result.wrote ≤ length out.old }
    ensures left { result.full ≡ 0 → length input.now ≤ result.taken + 512 }
    ensures at_end { result.full ≡ 0 → at_end ≢ 0 → result.taken ≡ length input.now }
    ensures full { result.full ≢ 0 → length out.old < result.wrote + LONGEST }
    ensures goes_on { result.full ≢ 0 → LONGEST ≤ length out.old → 0 < result.taken }
{
    let standing = standing_of(opened, skipping);
    fed_face(feed(input, flagged(at_end), standing, book, sums, out))
}
