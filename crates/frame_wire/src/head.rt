//! Short frames, and the heads of others. They stand in place, and take no memory.
ghost use Rattle.std.specs.Prelude.{◌≡◌, ℕ, ◌+◌, ◌*◌, ◌<◌, ◌≤◌, ◌^◌, ◌∷◌, ◌++◌, List, [], length};
ghost use Rattle.frame_wire.specs.Said.{field, wide_field, fields, frame_of};
ghost use Rattle.items.specs.BegunFrame.{frame_part};
ghost use Rattle.request_form.specs.Stream.{max_head};

use byteorder::{BigEndian, ByteOrder};
pub use request_form::Head;

// Adds bytes for which there is room.
fn extend(head: &mut Head, bytes: &[u8])
    requires { length head.old.items + length bytes.now ≤ max_head }
    ensures { head.new.items ≡ head.old.items ++ bytes.now }
{
    match head.try_extend_from_slice(bytes) {
        Ok(()) => {}
        Err(_) => unreachable!(),
    }
}

// A frame's length, which counts the bytes behind it, and its operation.
#[tactic(auto, unfolding(items::specs::BegunFrame::frame_part))]
fn begin(count: u32, operation: u8) -> Head
    ensures front { result.items ≡ frame_part count (operation ∷ []) }
    ensures length { length result.items ≡ 5 }
{
    let mut length = [0u8; 4];
    BigEndian::write_u32(&mut length, count);
    let mut head = Head::new();
    extend(&mut head, &length);
    extend(&mut head, &[operation]);
    head
}

// Adds a number.
#[tactic(auto, unfolding(crate::specs::Said::field))]
fn add(head: &mut Head, number: u64)
    requires { length head.old.items + 8 ≤ max_head }
    ensures front { head.new.items ≡ head.old.items ++ field number }
    ensures length { length head.new.items ≡ length head.old.items + 8 }
{
    let mut bytes = [0u8; 8];
    BigEndian::write_u64(&mut bytes, number);
    extend(head, &bytes);
}

// Adds a number in 16 bytes.
#[tactic(auto, unfolding(crate::specs::Said::wide_field))]
fn add_wide(head: &mut Head, number: u128)
    requires { length head.old.items + 16 ≤ max_head }
    ensures front { head.new.items ≡ head.old.items ++ wide_field number }
    ensures length { length head.new.items ≡ length head.old.items + 16 }
{
    let mut bytes = [0u8; 16];
    BigEndian::write_u128(&mut bytes, number);
    extend(head, &bytes);
}

/// The frame of an operation and numbers.
pub fn numbers_frame(operation: u8, numbers: &[u64]) -> Head
    requires { length numbers.now ≤ 4 }
    ensures frame { result.items ≡ frame_of (operation ∷ fields numbers.now) }
    ensures length { length result.items ≡ 5 + 8 * length numbers.now }
{
    let mut frame = begin(1 + 8 * numbers.len() as u32, operation);
    for number in numbers {
        add(&mut frame, *number);
    }
    frame
}

/// The frame of a refusal with two numbers, of which the first takes 16 bytes.
pub fn range_frame(refusal: u64, end: u128, size: u64) -> Head
    ensures { result.items ≡ frame_of (255 ∷ (field refusal ++ (wide_field end ++ field size))) }
{
    let mut frame = begin(33, 255);
    add(&mut frame, refusal);
    add_wide(&mut frame, end);
    add(&mut frame, size);
    frame
}

/// The front of a frame of an operation and so many bytes, which stand behind it.
pub fn front(operation: u8, count: u32) -> Head
    requires { count + 1 < 2 ^ 32 }
    ensures { (bytes : List ℕ) → length bytes ≡ count → result.items ++ bytes ≡ frame_of (operation ∷ bytes) }
{
    begin(1 + count, operation)
}
