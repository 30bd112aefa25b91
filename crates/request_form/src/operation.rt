ghost use Rattle.std.specs.Prelude.{◌≡◌, ◌<◌, ◌≤◌, ◌^◌, ℕ, length, slice_index, MatchOption};
ghost use Rattle.std.specs.Bool.{MatchBool};
ghost use Rattle.request_form.specs.declared.operation.Operation.{Operation};
ghost use Rattle.request_form.specs.Operations.{number_of, since_of, numbers_of, has_bytes, has_ranges, IsSince, HasWord, HasNumber, request_with};

use crate::form::Request;
use blob_model::Bytes;

/// What a client asks for, but for the fields: the command of a line, or the operation of a frame. Contracts name how each is spelled
/// by the table `row_of`.
#[derive(Clone, Copy, Debug, PartialEq, Eq)]
pub enum Operation {
    Create,
    Append,
    Write,
    StartAppend,
    StartWrite,
    Finish,
    Read,
    Recent,
    Size,
    Sync,
    Status,
    Branch,
    Quit,
    Hello,
    ReadMany,
    Repair,
}

// The operation with that number, whichever frames may have it.
fn numbered(number: u8) -> Option<Operation>
    ensures { MatchOption result
        ((operation : Operation) → number_of operation ≡ number → ⊥)
        (λ operation. number_of operation ≡ number) }
{
    match number {
        1 => Some(Operation::Create),
        2 => Some(Operation::Append),
        3 => Some(Operation::Write),
        4 => Some(Operation::StartAppend),
        5 => Some(Operation::StartWrite),
        6 => Some(Operation::Finish),
        7 => Some(Operation::Read),
        8 => Some(Operation::Recent),
        9 => Some(Operation::Size),
        10 => Some(Operation::Sync),
        11 => Some(Operation::Status),
        12 => Some(Operation::Branch),
        13 => Some(Operation::Quit),
        14 => Some(Operation::Hello),
        15 => Some(Operation::ReadMany),
        16 => Some(Operation::Repair),
        _ => None,
    }
}

impl Operation {
    /// The operation with that command in lines.
    pub fn of_word(word: &[u8]) -> Option<Operation>
        ensures { MatchOption result
            ((operation : Operation) → HasWord operation word.now → ⊥)
            (λ operation. HasWord operation word.now) }
    {
        // Its length decides first, and then its letters.
        match word {
            b"append" => Some(Operation::Append),
            b"read" => Some(Operation::Read),
            b"write" => Some(Operation::Write),
            b"create" => Some(Operation::Create),
            b"start-append" => Some(Operation::StartAppend),
            b"start-write" => Some(Operation::StartWrite),
            b"finish" => Some(Operation::Finish),
            b"recent" => Some(Operation::Recent),
            b"size" => Some(Operation::Size),
            b"sync" => Some(Operation::Sync),
            b"status" => Some(Operation::Status),
            b"branch" => Some(Operation::Branch),
            b"repair" => Some(Operation::Repair),
            b"quit" => Some(Operation::Quit),
            _ => None,
        }
    }

    /// The operation with that number, where frames of that version may have it.
    pub fn of_number(number: u8, version: u64) -> Option<Operation>
        ensures { MatchOption result
            ((operation : Operation) → HasNumber operation number version → ⊥)
            (λ operation. HasNumber operation number version) }
    {
        let operation = numbered(number)?;
        if operation.is_in(version) {
            Some(operation)
        } else {
            None
        }
    }

    /// Whether any frame of that version may have it.
    pub fn is_in(self, version: u64) -> bool
        ensures { MatchBool result (IsSince (since_of self) version) (IsSince (since_of self) version → ⊥) }
    {
        match self {
            Operation::Hello => false,
            Operation::ReadMany | Operation::Repair => version >= 2,
            _ => version >= 1,
        }
    }

    /// How many numbers its fields begin with.
    pub fn numbers(self) -> usize
        ensures numbers { result ≡ numbers_of self }
        ensures few { result ≤ 4 }
    {
        match self {
            Operation::Create | Operation::Quit => 0,
            Operation::Append | Operation::StartAppend | Operation::Finish => 1,
            Operation::Recent | Operation::Status | Operation::Hello => 1,
            Operation::Read => 4,
            _ => 2,
        }
    }

    /// Whether bytes may follow the numbers.
    pub fn has_bytes(self) -> bool
        ensures { result ≡ has_bytes self }
    {
        matches!(
            self,
            Operation::Append | Operation::Write | Operation::StartAppend | Operation::StartWrite
        )
    }

    /// Whether ranges follow the numbers.
    pub fn has_ranges(self) -> bool
        ensures { result ≡ has_ranges self }
    {
        matches!(self, Operation::ReadMany)
    }

    /// The request with these numbers, and these bytes where it has any. None where it has ranges.
    pub fn request(self, numbers: &[u64], bytes: Bytes) -> Option<Request>
        requires { length numbers.now ≡ numbers_of self }
        ensures request { result ≡ request_with self numbers.now bytes }
        ensures numbers_fit { (i : ℕ) → slice_index numbers.now i < 2 ^ 64 }
    {
        match (self, numbers) {
            (Operation::Create, _) => Some(Request::Create),
            (Operation::Append, &[blob]) => Some(Request::Append { blob, bytes }),
            (Operation::Write, &[blob, offset]) => Some(Request::Write {
                blob,
                offset,
                bytes,
            }),
            (Operation::StartAppend, &[blob]) => Some(Request::StartAppend { blob, bytes }),
            (Operation::StartWrite, &[blob, offset]) => Some(Request::StartWrite {
                blob,
                offset,
                bytes,
            }),
            (Operation::Finish, &[ticket]) => Some(Request::Finish { ticket }),
            (Operation::Read, &[blob, version, offset, length]) => Some(Request::Read {
                blob,
                version,
                offset,
                length,
            }),
            (Operation::Recent, &[blob]) => Some(Request::Recent { blob }),
            (Operation::Size, &[blob, version]) => Some(Request::Size { blob, version }),
            (Operation::Sync, &[blob, version]) => Some(Request::Sync { blob, version }),
            (Operation::Status, &[blob]) => Some(Request::Status { blob }),
            (Operation::Branch, &[blob, version]) => Some(Request::Branch { blob, version }),
            (Operation::Quit, _) => Some(Request::Quit),
            (Operation::Hello, &[version]) => Some(Request::Hello { version }),
            (Operation::ReadMany, _) => None,
            (Operation::Repair, &[blob, version]) => Some(Request::Repair { blob, version }),
            _ => unreachable!(),
        }
    }
}
