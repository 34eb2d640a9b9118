// Where the first packet stands, and how long it is.
ghost use Rattle.std.specs.Prelude.{◌≡◌, ◌<◌, ◌≤◌, length, IfSome};
ghost use Rattle.checks.specs.Checks.{lowest};
ghost use Rattle.joining.specs.Finding.{told_length, begins as begins_so, stands_at as stands_at_so};

use packet::{HEADER_LEN, ROW_COUNT_AT, open, word_at};

// The bytes of a packet, as its header tells.
pub fn told_len(bytes: &[u8]) -> usize
    ensures { result ≡ told_length bytes.now }
{
    HEADER_LEN + usize::from(word_at(bytes, ROW_COUNT_AT))
}

// Whether a packet stands in front, as long as its header tells.
fn begins(bytes: &[u8]) -> bool
    ensures { result ≡ begins_so bytes.now }
{
    let len = told_len(bytes);
    if bytes.len() < len {
        return false;
    }
    open(&bytes[..len]).is_ok()
}

// Whether a packet stands at that place.
fn stands_at(bytes: &[u8], place: usize) -> bool
    requires within { place ≤ length bytes.now }
    ensures { result ≡ stands_at_so bytes.now place }
{
    begins(&bytes[place..])
}

// The first place where a packet stands.
pub fn first_packet(bytes: &[u8]) -> Option<usize>
    ensures answers { result ≡ lowest (stands_at_so bytes.now) (length bytes.now) }
    ensures within { IfSome result (λ i. i < length bytes.now) }
{
    (0..bytes.len()).find(|place| stands_at(bytes, *place))
}
