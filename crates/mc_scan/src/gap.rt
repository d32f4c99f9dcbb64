// Blanks and comments.

ghost use Rattle.std.specs.Prelude.{◌≡◌, ◌<◌, length, IfOk, IfErr, MatchOption};
ghost use Rattle.mc_tree.specs.Spellings.{HasClose};
ghost use Rattle.mc_scan.specs.Pieces.{IsGapFront, HasNoGap, IsRefusal};
ghost use Rattle.mc_scan.specs.Closes.{ClosesAt};

use crate::bytes::is_blank;
use crate::fault::ScanFault;
use mc_tree::place::Place;

/// How many bytes stand before the first `*)`.
fn close(bytes: &[u8]) -> Option<usize>
    ensures { MatchOption result (¬ HasClose bytes.now) (λ n. ClosesAt n bytes.now) }
{
    for (i, b) in bytes.iter().enumerate() {
        if *b == b'*' && i + 1 < bytes.len() && bytes[i + 1] == b')' {
            return Some(i);
        }
    }
    None
}

/// The length of the blank or the comment at the front, where there is one.
pub fn gap_length(rest: &[u8], place: Place) -> Result<Option<usize>, ScanFault>
    requires { 0 < length rest.now }
    ensures ok { IfOk result (λ gap. MatchOption gap (HasNoGap rest.now) (λ n. IsGapFront n rest.now)) }
    ensures refused { IfErr result (λ fault. IsRefusal fault place rest.now) }
{
    if is_blank(rest[0]) {
        return Ok(Some(1));
    }
    if rest.len() < 2 || rest[0] != b'(' || rest[1] != b'*' {
        return Ok(None);
    }
    match close(&rest[2..]) {
        Some(inside) => Ok(Some(inside + 4)),
        None => Err(ScanFault::OpenComment(place)),
    }
}
