ghost use Rattle.std.specs.Prelude.{◌≡◌, ℕ, List, ◌∷◌, length, true, None, MatchOption};
ghost use Rattle.request_form.specs.Operations.{HasNumber};
ghost use Rattle.frame_wire.specs.Frames.{heard_as};
ghost use Rattle.frame_wire.specs.Requests.{fits, request_of};

use request_form::{Fault, Heard, Operation, Request};

// The most bytes of a blob, a version and ranges.
const MOST: u32 = 1_040;

// Whether so many bytes behind an operation are its fields, and nothing is left over.
fn fits(operation: Operation, count: u32) -> bool
    ensures { result ≡ fits operation count }
{
    let least = 8 * operation.numbers();
    if operation.has_bytes() {
        count as usize >= least
    } else if operation.has_ranges() {
        count % 16 == 0 && 32 <= count && count <= MOST
    } else {
        count as usize == least
    }
}

/// The operation of that number in frames of that version, where so many bytes behind it are its fields.
pub fn known(version: u64, number: u8, count: u32) -> Option<Operation>
    ensures { MatchOption result
        ((bytes : List ℕ) → length bytes ≡ count → request_of version (number ∷ bytes) ≡ None)
        (λ operation. HasNumber operation number version × (fits operation count ≡ true)) }
{
    let operation = Operation::of_number(number, version)?;
    if fits(operation, count) {
        Some(operation)
    } else {
        None
    }
}

/// What a frame says that spells this request, or none.
pub fn heard(request: Option<Request>) -> Heard
    ensures { result ≡ heard_as request }
{
    match request {
        Some(request) => Heard::Asked(request),
        None => Heard::Wrong(Fault::BadFrame),
    }
}
