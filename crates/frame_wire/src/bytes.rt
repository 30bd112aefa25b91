//! The bytes of an update or of a page, at the end of a frame.
ghost use Rattle.std.specs.Prelude.{◌≡◌, ◌++◌, length, take, min, IfOk, OnErr};

use request_form::NoMemory;

/// Takes bytes off the front of a piece, of which `left` are still to come, and says how many. Room for all of them is made once.
pub fn take_bytes(bytes: &mut Vec<u8>, left: u32, piece: &[u8]) -> Result<usize, NoMemory>
    ensures ok { IfOk result (λ count. (count ≡ min left (length piece.now)) × (bytes.new.items ≡ bytes.old.items ++ take count piece.now)) }
    ensures err { OnErr result (bytes.new.items ≡ bytes.old.items) }
{
    let count = piece.len().min(left as usize);
    if bytes.is_empty() {
        bytes.reserve_exact(left as usize)?;
    }
    bytes.extend_from_slice(&piece[..count])?;
    Ok(count)
}
