ghost use Rattle.std.specs.Prelude.{◌≡◌, ◌<◌, ◌≤◌, ◌∷◌, ◌++◌, ℕ, [], length, take, min, true, IfOk, OnErr};
ghost use Rattle.request_form.specs.Operations.{number_of, since_of, IsSince};
ghost use Rattle.frame_wire.specs.Requests.{fits, request_of};
ghost use Rattle.items.specs.Come.{Come, TakesBytes};

use crate::bytes::take_bytes;
use crate::number::take_numbers;
use crate::operation::{heard, known};
use arrayvec::ArrayVec;
use blob_model::Bytes;
use items::frames::Body;
use request_form::{Fault, Heard, NoMemory, Operation, Request};
use std::alloc::Global;
use std::marker::Model;

// The most bytes that the length of a frame of version 1 may count.
const MAX_FRAME: u32 = 2_097_152;

/// What has come of the fields of a request that version 1 has, decoded. Contracts see the operation and the bytes that have come
/// behind it, and how many are still to come.
#[derive(Drop)]
pub struct Fields {
    operation: Operation,
    numbers: ArrayVec<u64, 4>,
    // What has come of the next number.
    part: ArrayVec<u8, 8>,
    bytes: Vec<u8>,
    left: u32,
}

impl Model for Fields {
    ghost use Rattle.std.specs.Prelude.{◌∷◌, ◌++◌};
    ghost use Rattle.items.specs.Come.{Come, come_coded};

    ghost Value = { Come };

    ghost coded = { come_coded };

    ghost use Rattle.request_form.specs.Operations.{number_of};
    ghost use Rattle.frame_wire.specs.Said.{fields};
    ghost use Rattle.frame_wire.specs.Decoded.{IsDecoded};

    ghost view = { λ f. record { bytes = number_of f.operation ∷ (fields f.numbers.items ++ (f.part.items ++ f.bytes.items)); left = f.left } };

    ghost invariant = { λ f. IsDecoded f.operation f.numbers.items f.part.items f.bytes.items f.left };
}

impl Fields {
    /// The fields of an operation, of which nothing has come.
    pub(crate) fn of(alloc: Global, operation: Operation, left: u32) -> Fields
        requires fits { fits operation left ≡ true }
        requires since { IsSince (since_of operation) 1 }
        ensures { result ≡ record { bytes = number_of operation ∷ []; left = left } }
    {
        Fields {
            operation,
            numbers: ArrayVec::new(),
            part: ArrayVec::new(),
            bytes: Vec::new(alloc),
            left,
        }
    }

    /// What they ask for, now that all has come, in frames of each version.
    pub(crate) fn into_request(self) -> Option<Request>
        requires { self.left ≡ 0 }
        ensures { (version : ℕ) → 1 ≤ version → request_of version self.bytes ≡ result }
    {
        let Fields {
            operation,
            numbers,
            part: _,
            bytes,
            left: _,
        } = self;
        operation.request(numbers.as_slice(), Bytes::of(bytes))
    }
}

impl Body for Fields {
    ghost use Rattle.request_form.specs.Stream.{IsWellHeard};
    ghost use Rattle.frame_wire.specs.Frames.{request_frames, request_frames_hold};

    type Item = Heard;

    ghost framing = { request_frames };

    ghost IsWell = { IsWellHeard };

    ghost come = { λ f. f };

    fn limit() -> u32 {
        MAX_FRAME
    }

    fn begin(alloc: Global, first: u8, left: u32) -> Option<Fields> {
        let operation = known(1, first, left)?;
        Some(Fields::of(alloc, operation, left))
    }

    fn left(&self) -> u32 {
        self.left
    }

    fn take(&mut self, piece: &[u8]) -> Result<usize, NoMemory> {
        let most = self.operation.numbers();
        let count = if self.numbers.len() < most {
            take_numbers(&mut self.numbers, most, &mut self.part, piece)
        } else {
            take_bytes(&mut self.bytes, self.left, piece)?
        };
        self.left -= count as u32;
        Ok(count)
    }

    fn into_item(self) -> Heard {
        heard(self.into_request())
    }

    fn bad() -> Heard {
        Heard::Wrong(Fault::BadFrame)
    }

    fn too_long(length: u32) -> Heard {
        let length = u64::from(length);
        Heard::Wrong(Fault::FrameTooLong { length })
    }

    ghost is_framing = { request_frames_hold };
}
