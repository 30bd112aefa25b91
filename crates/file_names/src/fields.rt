// The fields of a line, from its first byte on.
ghost use Rattle.std.specs.Prelude.{◌≡◌, ◌≤◌, ◌<◌, ◌∷◌, [], length, take, slice_index, IfOk, MatchOption};
ghost use Rattle.items.specs.Text.{IsWithout};
ghost use Rattle.script_text.specs.Fields.{number_of, bytes_of};
ghost use Rattle.script_text.specs.Lines.{fields_of};
ghost use Rattle.file_names.specs.Lines.{path_of, one_path, one_number, one_bytes, two_numbers, three_numbers, path_and_bytes, path_and_range};

use crate::path::Path;
use blob_model::Bytes;
use faults::NoMemory;
use hex::{FromHexError, decode};
use std::alloc::Global;

// How many bytes come before the first space.
fn before_space(text: &[u8]) -> usize
    ensures within { result ≤ length text.now }
    ensures without { IsWithout 32 (take result text.now) }
    ensures enough { result < length text.now → slice_index text.now result ≡ 32 }
{
    match text.iter().position(|b| *b == b' ') {
        Some(at) => at,
        None => text.len(),
    }
}

/// The first field of a text, and what stands behind the space after it, if one does.
pub fn cut(text: &[u8]) -> (&[u8], Option<&[u8]>)
    ensures { MatchOption result.1
        (fields_of text.now ≡ result.0.now ∷ [])
        (λ rest. fields_of text.now ≡ result.0.now ∷ fields_of rest.now) }
{
    let at = before_space(text);
    if at == text.len() {
        return (text, None);
    }
    (&text[..at], Some(&text[at + 1..]))
}

// The number that a field spells.
fn number_in(field: &[u8]) -> Option<u64>
    ensures { result ≡ number_of field.now }
{
    match std::str::from_utf8(field) {
        Ok(digits) => items::number(digits),
        Err(_) => None,
    }
}

// The path that a field is.
fn path_in(alloc: Global, field: &[u8]) -> Result<Option<Path>, NoMemory>
    ensures { IfOk result (λ path. path ≡ path_of field.now) }
{
    Ok(Path::of(field.to_vec(alloc)?))
}

// The bytes that a field spells: `-` is none of them.
fn bytes_in(alloc: Global, field: &[u8]) -> Result<Option<Bytes>, NoMemory>
    ensures { IfOk result (λ bytes. bytes ≡ bytes_of field.now) }
{
    if field == b"-".as_slice() {
        return Ok(Some(Bytes::of(Vec::new(alloc))));
    }
    if field.is_empty() {
        return Ok(None);
    }
    match decode(alloc, field) {
        Ok(bytes) => Ok(Some(Bytes::of(bytes))),
        Err(FromHexError::OutOfMemory) => Err(NoMemory),
        Err(_) => Ok(None),
    }
}

/// The path that is the one field of a text.
pub fn one_path(alloc: Global, text: &[u8]) -> Result<Option<Path>, NoMemory>
    ensures { IfOk result (λ path. path ≡ one_path (fields_of text.now)) }
{
    match cut(text) {
        (field, None) => path_in(alloc, field),
        (_, Some(_)) => Ok(None),
    }
}

/// The number that is the one field of a text.
pub fn one_number(text: &[u8]) -> Option<u64>
    ensures { result ≡ one_number (fields_of text.now) }
{
    match cut(text) {
        (field, None) => number_in(field),
        (_, Some(_)) => None,
    }
}

// The bytes that the one field of a text spells.
fn one_bytes(alloc: Global, text: &[u8]) -> Result<Option<Bytes>, NoMemory>
    ensures { IfOk result (λ bytes. bytes ≡ one_bytes (fields_of text.now)) }
{
    match cut(text) {
        (field, None) => bytes_in(alloc, field),
        (_, Some(_)) => Ok(None),
    }
}

// The two numbers that are the fields of a text.
fn two_numbers(text: &[u8]) -> Option<(u64, u64)>
    ensures { result ≡ two_numbers (fields_of text.now) }
{
    let (field, rest) = cut(text);
    let second = one_number(rest?)?;
    Some((number_in(field)?, second))
}

// The three numbers that are the fields of a text.
fn three_numbers(text: &[u8]) -> Option<(u64, u64, u64)>
    ensures { result ≡ three_numbers (fields_of text.now) }
{
    let (field, rest) = cut(text);
    let (second, third) = two_numbers(rest?)?;
    Some((number_in(field)?, second, third))
}

/// The path and the bytes that are the fields of a text.
pub fn path_and_bytes(alloc: Global, text: &[u8]) -> Result<Option<(Path, Bytes)>, NoMemory>
    ensures { IfOk result (λ both. both ≡ path_and_bytes (fields_of text.now)) }
{
    let (field, Some(rest)) = cut(text) else {
        return Ok(None);
    };
    let Some(path) = path_in(alloc, field)? else {
        return Ok(None);
    };
    match one_bytes(alloc, rest)? {
        None => Ok(None),
        Some(bytes) => Ok(Some((path, bytes))),
    }
}

/// The path and the three numbers that are the fields of a text.
pub fn path_and_range(alloc: Global, text: &[u8]) -> Result<Option<(Path, u64, u64, u64)>, NoMemory>
    ensures { IfOk result (λ all. all ≡ path_and_range (fields_of text.now)) }
{
    let (field, Some(rest)) = cut(text) else {
        return Ok(None);
    };
    let Some((version, offset, length)) = three_numbers(rest) else {
        return Ok(None);
    };
    match path_in(alloc, field)? {
        None => Ok(None),
        Some(path) => Ok(Some((path, version, offset, length))),
    }
}
