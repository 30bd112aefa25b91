// Frames of version 2.
ghost use Rattle.std.specs.Prelude.{◌≡◌};

use crate::fields::Fields;
use crate::operation::{heard, known};
use crate::pairs::Pairs;
use items::frames::Body;
use request_form::{Fault, Heard, NoMemory};
use std::alloc::Global;

// The most bytes that the length of a frame of version 2 may count.
const MAX_FRAME: u32 = 17_825_792;

/// What has come of a request's fields in version 2, decoded.
#[derive(Drop)]
pub enum SecondFields {
    /// Those of an operation that version 1 has too.
    First(Fields),
    /// Those of one that only version 2 has.
    Paired(Pairs),
}

impl Body for SecondFields {
    ghost use Rattle.request_form.specs.Stream.{IsWellHeard};
    ghost use Rattle.frame_wire.specs.Frames.{second_frames, second_frames_hold};
    ghost use Rattle.frame_wire.specs.Second.{second_come};

    type Item = Heard;

    ghost framing = { second_frames };

    ghost IsWell = { IsWellHeard };

    ghost come = { second_come };

    fn limit() -> u32 {
        MAX_FRAME
    }

    fn begin(alloc: Global, first: u8, left: u32) -> Option<SecondFields> {
        let operation = known(2, first, left)?;
        if operation.is_in(1) {
            Some(SecondFields::First(Fields::of(alloc, operation, left)))
        } else {
            Some(SecondFields::Paired(Pairs::of(alloc, operation, left)))
        }
    }

    fn left(&self) -> u32 {
        match self {
            SecondFields::First(fields) => fields.left(),
            SecondFields::Paired(pairs) => pairs.left(),
        }
    }

    fn take(&mut self, piece: &[u8]) -> Result<usize, NoMemory> {
        match self {
            SecondFields::First(fields) => fields.take(piece),
            SecondFields::Paired(pairs) => pairs.take(piece),
        }
    }

    fn into_item(self) -> Heard {
        match self {
            SecondFields::First(fields) => heard(fields.into_request()),
            SecondFields::Paired(pairs) => heard(pairs.into_request()),
        }
    }

    fn bad() -> Heard {
        Heard::Wrong(Fault::BadFrame)
    }

    fn too_long(length: u32) -> Heard {
        let length = u64::from(length);
        Heard::Wrong(Fault::FrameTooLong { length })
    }

    ghost is_framing = { second_frames_hold };
}
