ghost use Rattle.std.specs.Prelude.{◌≡◌, ◌⊎◌, ◌<◌, ◌≤◌, ◌∷◌, ◌++◌, [], length, take, slice_index, IfOk, MatchOption, Some};
ghost use Rattle.std.specs.Bool.{MatchBool};
ghost use Rattle.arrayvec.specs.ArrayVec.{array_vec_len};
ghost use Rattle.std.specs.List.{All};
ghost use Rattle.items.specs.Text.{Takes};
ghost use Rattle.script_text.specs.Requests.{request_in, request_of};
ghost use Rattle.script_text.specs.Lines.{fields_of, heard_as, script_lines};
ghost use Rattle.request_form.specs.Operations.{HasWord};
ghost use Rattle.script_text.specs.Decoded.{AsksNothing, IsFieldBehind, command_of};
ghost use Rattle.script_text.specs.Begun.{IsLetter, begun_text, IsBegun};

use crate::fields::{Fields, Part, field_behind};
use arrayvec::ArrayVec;
use blob_model::Bytes;
use items::lines::Body;
use request_form::{Fault, Heard, NoMemory, Operation, Request};
use std::alloc::Global;
use std::marker::Model;

// The most bytes of a line, its end not counted.
const MAX_LINE: usize = 4_194_304;

/// What has come of a line that may still be a request.
#[derive(Drop)]
pub enum Begun {
    /// Letters of its command.
    Word(ArrayVec<u8, 12>),
    /// Its command, and what has come of the fields behind it.
    Asked(Fields),
}

// Whether a command may have this byte.
fn is_letter(byte: u8) -> bool
    ensures { MatchBool result (IsLetter byte) (IsLetter byte → ⊥) }
{
    byte.is_ascii_lowercase() || byte == b'-'
}

// What a whole first field asks for, and the field that begins behind it.
#[derive(Clone, Copy)]
struct Opening {
    operation: Operation,
    first: Part,
}

// What a line asks for whose first field is whole, if its command has any fields.
fn opened(word: &[u8]) -> Option<Opening>
    requires { All IsLetter word.now }
    ensures { MatchOption result
        (AsksNothing (word.now ++ 32 ∷ []))
        (λ it. (command_of it.operation ≡ word.now) × HasWord it.operation word.now × IsFieldBehind it.operation 0 (Some it.first)) }
{
    let operation = Operation::of_word(word)?;
    let first = field_behind(operation, 0)?;
    Some(Opening { operation, first })
}

// How many bytes come before the first that is no letter of a command.
fn letters_of(piece: &[u8]) -> usize
    ensures within { result ≤ length piece.now }
    ensures letters { All IsLetter (take result piece.now) }
    ensures stops { result < length piece.now → IsLetter (slice_index piece.now result) → ⊥ }
{
    match piece.iter().position(|b| !is_letter(*b)) {
        Some(at) => at,
        None => piece.len(),
    }
}

// Adds the letters at the front of a piece to those of a command, as far as there is room, and says how many.
fn add_letters(word: &mut ArrayVec<u8, 12>, piece: &[u8]) -> usize
    requires { All IsLetter word.old.items }
    ensures within { result ≤ length piece.now }
    ensures word { word.new.items ≡ word.old.items ++ take result piece.now }
    ensures letters { All IsLetter word.new.items }
    ensures stops { result < length piece.now → (IsLetter (slice_index piece.now result) → ⊥) ⊎ (12 ≤ array_vec_len word.new) }
{
    let count = letters_of(&piece[..word.remaining_capacity().min(piece.len())]);
    word.try_extend_from_slice(&piece[..count]).unwrap();
    count
}

// Takes bytes off the front of a piece, at least one, where what has come is changed where it lies. Says how many, or none where
// the line is no request, however it goes on.
fn take_part(alloc: Global, begun: &mut Begun, piece: &[u8]) -> Result<Option<usize>, NoMemory>
    requires begun { IsBegun begun.old }
    requires some { 0 < length piece.now }
    ensures takes { IfOk result (λ count. Takes script_lines (begun_text begun.old) piece.now (begun_text begun.new) count) }
    ensures begun { IsBegun begun.new }
{
    match begun {
        Begun::Asked(fields) => fields.take(piece),
        Begun::Word(word) => {
            let count = add_letters(word, piece);
            if count == piece.len() {
                return Ok(Some(count));
            }
            if piece[count] != b' ' {
                return Ok(None);
            }
            match opened(word.as_slice()) {
                None => Ok(None),
                Some(Opening { operation, first }) => {
                    *begun = Begun::Asked(Fields::of(alloc, operation, first));
                    Ok(Some(count + 1))
                }
            }
        }
    }
}

// Takes all bytes of a piece. Says how many they are, or none where the line is no request, however it goes on.
fn take_all(alloc: Global, begun: &mut Begun, piece: &[u8]) -> Result<Option<usize>, NoMemory>
    requires begun { IsBegun begun.old }
    requires some { 0 < length piece.now }
    ensures takes { IfOk result (λ count. Takes script_lines (begun_text begun.old) piece.now (begun_text begun.new) count) }
    ensures begun { IsBegun begun.new }
{
    let mut taken = 0;
    'piece: while taken < piece.len() {
        match take_part(alloc, begun, &piece[taken..])? {
            Some(count) => taken += count,
            None => return Ok(None),
        }
    }
    Ok(Some(taken))
}

// The request of a command without fields, if it makes one.
fn bare(alloc: Global, operation: Operation) -> Option<Request>
    ensures { result ≡ request_in (Some operation) [] }
{
    if operation.numbers() > 0 || operation.has_bytes() {
        return None;
    }
    operation.request(&[], Bytes::of(Vec::new(alloc)))
}

// The request of a line that is no more than a word, if it spells one.
fn word_request(alloc: Global, word: &[u8]) -> Option<Request>
    requires { All IsLetter word.now }
    ensures { result ≡ request_of (fields_of word.now) }
{
    match Operation::of_word(word) {
        None => None,
        Some(operation) => bare(alloc, operation),
    }
}

// What a line says that may be a request.
fn heard(request: Option<Request>) -> Heard
    ensures { result ≡ heard_as request }
{
    match request {
        Some(request) => Heard::Asked(request),
        None => Heard::Wrong(Fault::Malformed),
    }
}

// The request that a line spells, if it spells one, now that it has ended.
fn request(alloc: Global, begun: Begun) -> Option<Request>
    requires { IsBegun begun }
    ensures { result ≡ request_of (fields_of (begun_text begun)) }
{
    match begun {
        Begun::Word(word) => word_request(alloc, word.as_slice()),
        Begun::Asked(fields) => fields.into_request(),
    }
}

/// A line of a script as it comes, decoded. Contracts see the bytes that have come, or such as spell the same however they go on.
#[derive(Drop)]
pub struct Line {
    begun: Begun,
}

impl Model for Line {
    ghost use Rattle.std.specs.Prelude.{ℕ, List};

    ghost Value = { List ℕ };

    ghost use Rattle.script_text.specs.Begun.{begun_text, IsBegun};

    ghost view = { λ l. begun_text l.begun };

    ghost invariant = { λ l. IsBegun l.begun };
}

impl Body for Line {
    ghost use Rattle.request_form.specs.Stream.{IsWellHeard};
    ghost use Rattle.script_text.specs.Lines.{script_lines, script_lines_hold};

    type Item = Heard;

    ghost lining = { script_lines };

    ghost IsWell = { IsWellHeard };

    ghost text = { λ l. l };

    fn limit() -> usize {
        MAX_LINE
    }

    fn new(_: Global) -> Line {
        Line {
            begun: Begun::Word(ArrayVec::new()),
        }
    }

    fn take(&mut self, alloc: Global, piece: &[u8]) -> Result<Option<usize>, NoMemory> {
        take_all(alloc, &mut self.begun, piece)
    }

    fn into_item(self, alloc: Global) -> Result<Heard, NoMemory> {
        Ok(heard(request(alloc, self.begun)))
    }

    fn bad() -> Heard {
        Heard::Wrong(Fault::Malformed)
    }

    ghost is_lining = { script_lines_hold };
}
