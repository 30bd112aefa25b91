ghost use Rattle.std.specs.Prelude.{◌≡◌, ◌≤◌, ◌<◌, ◌+◌, ◌-◌, ◌*◌, ◌%◌, ◌^◌, ◌==◌, ◌∷◌, ◌++◌, []};
ghost use Rattle.std.specs.Prelude.{ℕ, length, take, true, false, Some, Ok, IfOk, OnOk, OnErr, MatchOption};
ghost use Rattle.std.specs.Bool.{MatchBool, OnTrue};
ghost use Rattle.std.specs.List.{AllPass};
ghost use Rattle.std.specs.Fmt.{decimal};
ghost use Rattle.std.specs.Result.{result_ok};
ghost use Rattle.hex.specs.Hex.{pair_value, hex_digit_value, is_hex_digit, decode_of};
ghost use Rattle.request_form.specs.Operations.{numbers_of, HasWord};
ghost use Rattle.script_text.specs.Requests.{request_of};
ghost use Rattle.items.specs.Text.{Takes};
ghost use Rattle.script_text.specs.Lines.{fields_of, script_lines};
ghost use Rattle.script_text.specs.Begun.{IsPlain};
ghost use Rattle.script_text.specs.Decoded.{command_of, digits_of, SpellsNoNumber, IsDecoded, IsFieldBehind, BeginsPair};
ghost use Rattle.script_text.specs.Decoded.{EndsNumber, Adds, AddsByte, AsksNothing, Decodes, TakesRun, TakesNumber};
ghost use Rattle.script_text.specs.declared.fields.Part.TheVariants.{Number};

use arrayvec::ArrayVec;
use blob_model::Bytes;
use hex::decode_to_slice;
use request_form::{NoMemory, Operation, Request};
use std::alloc::Global;
use std::marker::Model;

/// What has come of a field.
#[derive(Clone, Copy)]
pub enum Part {
    /// A number: none of its digits, or those that spell this one.
    Number(Option<u64>),
    /// `-`, for no bytes.
    Dash,
    /// Hex digits: pairs, and maybe the first digit of one more.
    Digits(Option<u8>),
}

/// What has come of a command's fields, decoded. Contracts see the line so far, with hex digits in lower case.
#[derive(Drop)]
pub struct Fields {
    operation: Operation,
    numbers: ArrayVec<u64, 4>,
    part: Part,
    bytes: Vec<u8>,
}

impl Model for Fields {
    ghost use Rattle.std.specs.Prelude.{ℕ, List};
    ghost use Rattle.script_text.specs.Decoded.{fields_text, IsDecoded};

    ghost Value = { List ℕ };

    ghost view = { λ f. fields_text f.operation f.numbers.items f.part f.bytes.items };

    ghost invariant = { λ f. IsDecoded f.operation f.numbers.items f.part f.bytes.items };
}

// The number that one more digit behind those of a number makes, if it makes one.
fn digit_behind(number: u64, byte: u8) -> Option<u64>
    requires low { 48 ≤ byte }
    requires high { byte ≤ 57 }
    ensures { MatchOption result
        (SpellsNoNumber (decimal number ++ byte ∷ []))
        (λ more. decimal number ++ byte ∷ [] ≡ decimal more) }
{
    if number == 0 {
        return None;
    }
    let digit = u64::from(byte - b'0');
    number.checked_mul(10)?.checked_add(digit)
}

// The number that its digits so far and one more spell, if they do.
fn more_digits(number: Option<u64>, byte: u8) -> Option<u64>
    ensures { MatchOption result
        (SpellsNoNumber (digits_of number ++ byte ∷ []))
        (λ more. digits_of number ++ byte ∷ [] ≡ decimal more) }
{
    if !byte.is_ascii_digit() {
        return None;
    }
    match number {
        None => Some(u64::from(byte - b'0')),
        Some(number) => digit_behind(number, byte),
    }
}

// A number, and how many digits have come to it.
#[derive(Clone, Copy)]
struct Counted {
    number: Option<u64>,
    count: usize,
}

// The number that the digits of one and those at the front of a piece spell, as far as they do.
fn digits_behind(first: u64, piece: &[u8]) -> Counted
    ensures within { result.count ≤ length piece.now }
    ensures digits { decimal first ++ take result.count piece.now ≡ digits_of result.number }
{
    let mut number = first;
    let mut count = 0;
    'digits: while count < piece.len() && piece[count].is_ascii_digit() {
        let Some(more) = digit_behind(number, piece[count]) else {
            break;
        };
        number = more;
        count += 1;
    }
    Counted {
        number: Some(number),
        count,
    }
}

// The number that its digits so far and those at the front of a piece spell, as far as they do.
fn count_digits(number: Option<u64>, piece: &[u8]) -> Counted
    ensures within { result.count ≤ length piece.now }
    ensures digits { digits_of number ++ take result.count piece.now ≡ digits_of result.number }
{
    if let Some(number) = number {
        return digits_behind(number, piece);
    }
    if piece.is_empty() || !piece[0].is_ascii_digit() {
        return Counted { number, count: 0 };
    }
    let behind = digits_behind(u64::from(piece[0] - b'0'), &piece[1..]);
    Counted {
        number: behind.number,
        count: behind.count + 1,
    }
}

/// The field that comes behind so many numbers, if one may.
pub fn field_behind(operation: Operation, count: usize) -> Option<Part>
    requires { count ≤ numbers_of operation }
    ensures { IsFieldBehind operation count result }
{
    if count < operation.numbers() {
        Some(Part::Number(None))
    } else if operation.has_bytes() {
        Some(Part::Digits(None))
    } else {
        None
    }
}

// Ends a number by a space, and says which field has begun.
fn end_number(
    operation: Operation,
    numbers: &mut ArrayVec<u64, 4>,
    number: Option<u64>,
) -> Option<Part>
    requires { length numbers.old.items < numbers_of operation }
    ensures { EndsNumber operation numbers.old.items number numbers.new.items result }
{
    let number = number?;
    let part = field_behind(operation, numbers.len() + 1)?;
    numbers.push(number);
    Some(part)
}

// The part that has come, once so many bytes were taken off the front of a piece.
#[derive(Clone, Copy)]
struct Taken {
    part: Part,
    count: usize,
}

// Takes the digits at the front of a piece behind those of a number, and the space that ends it where another field may follow.
fn take_number(
    operation: Operation,
    numbers: &mut ArrayVec<u64, 4>,
    number: Option<u64>,
    piece: &[u8],
) -> Taken
    requires { IsDecoded operation numbers.old.items (Number number) [] }
    ensures { TakesNumber operation numbers.old.items number piece.now numbers.new.items result.part result.count }
{
    let Counted { number, count } = count_digits(number, piece);
    if count < piece.len() && piece[count] == b' ' {
        if let Some(part) = end_number(operation, numbers, number) {
            return Taken {
                part,
                count: count + 1,
            };
        }
    }
    Taken {
        part: Part::Number(number),
        count,
    }
}

// The first digit of a pair, or `-` where no digit has come.
fn first_digit(none: bool, byte: u8) -> Option<Part>
    ensures { BeginsPair none byte result }
{
    if byte.is_ascii_hexdigit() {
        Some(Part::Digits(Some(byte)))
    } else if none && byte == b'-' {
        Some(Part::Dash)
    } else {
        None
    }
}

// The byte that a pair of digits spells, if it does.
fn pair(high: u8, low: u8) -> Option<u8>
    ensures { result ≡ result_ok (pair_value high low 0) }
{
    let mut byte = [0];
    match decode_to_slice([high, low].as_slice(), byte.as_mut_slice()) {
        Ok(()) => Some(byte[0]),
        Err(_) => None,
    }
}

// Whether a byte is no hex digit.
fn is_other(byte: u8) -> bool
    ensures { MatchBool result (is_hex_digit byte ≡ false) (is_hex_digit byte ≡ true) }
{
    !byte.is_ascii_hexdigit()
}

// Whether all bytes are hex digits. Each is looked at whatever the others are, so that many can be at a time.
fn are_digits(piece: &[u8]) -> bool
    ensures { OnTrue result (AllPass is_hex_digit piece.now) }
{
    let mut digits = true;
    for byte in piece {
        digits &= !is_other(*byte);
    }
    digits
}

// How many bytes come before the first that is no hex digit.
fn before_other(piece: &[u8]) -> usize
    ensures within { result ≤ length piece.now }
    ensures digits { AllPass is_hex_digit (take result piece.now) }
{
    if are_digits(piece) {
        return piece.len();
    }
    match piece.iter().position(|b| is_other(*b)) {
        Some(at) => at,
        None => piece.len(),
    }
}

// The pairs of hex digits at the front of a piece. It is kept out of the loop over a line's parts, like all that short lines don't need:
// the compiler makes ready for it in each of them.
#[inline(never)]
fn pairs_of(piece: &[u8]) -> &[u8]
    ensures front { result.now ≡ take (length result.now) piece.now }
    ensures within { length result.now ≤ length piece.now }
    ensures even { length result.now % 2 ≡ 0 }
    ensures digits { AllPass is_hex_digit result.now }
{
    let count = before_other(piece);
    &piece[..count - count % 2]
}

// What a hex digit counts: its low four bits, and nine more where it is a letter. It is reckoned without asking which one it is.
#[inline(always)]
fn digit_value(digit: u8) -> u8
    requires { is_hex_digit digit ≡ true }
    ensures value { hex_digit_value digit ≡ Some result }
    ensures few { result < 16 }
{
    digit % 16 + digit / 64 * 9
}

// The byte that two hex digits spell, wherever they stand.
#[inline(always)]
fn digits_value(high: u8, low: u8) -> u8
    requires high { is_hex_digit high ≡ true }
    requires low { is_hex_digit low ≡ true }
    ensures { (index : ℕ) → pair_value high low index ≡ Ok result }
{
    digit_value(high) * 16 + digit_value(low)
}

// Decodes pairs of hex digits into room for as many bytes.
fn decode_digits(digits: &[u8], out: &mut [u8])
    requires room { length digits.now ≡ 2 * length out.old }
    requires digits { AllPass is_hex_digit digits.now }
    ensures { decode_of digits.now ≡ Ok out.new }
{
    'bytes: for i in 0..out.len() {
        out[i] = digits_value(digits[2 * i], digits[2 * i + 1]);
    }
}

// Decodes pairs of hex digits into the bytes behind the first `held`, which are as many as the pairs.
fn decode_behind(all: &mut [u8], held: usize, digits: &[u8])
    requires held { held ≤ length all.old }
    requires room { length digits.now ≡ 2 * (length all.old - held) }
    requires digits { AllPass is_hex_digit digits.now }
    ensures { Decodes (take held all.old) digits.now all.new }
{
    decode_digits(digits, &mut all[held..]);
}

// Puts the bytes that pairs of hex digits spell behind those that have come. It is kept out of the loop.
#[inline(never)]
fn push_pairs(bytes: &mut Vec<u8>, digits: &[u8]) -> Result<(), NoMemory>
    requires even { length digits.now % 2 ≡ 0 }
    requires digits { AllPass is_hex_digit digits.now }
    ensures ok { OnOk result (Decodes bytes.old.items digits.now bytes.new.items) }
    ensures err { OnErr result (bytes.new.items ≡ bytes.old.items) }
{
    let held = bytes.len();
    bytes.resize(held + digits.len() / 2, 0)?;
    decode_behind(bytes.as_mut_slice(), held, digits);
    Ok(())
}

// Adds one more byte, and says which part has come then. Runs take most bytes, so it is kept out of the loop, and `add` with it.
#[inline(never)]
fn next_part(
    operation: Operation,
    numbers: &mut ArrayVec<u64, 4>,
    part: Part,
    bytes: &mut Vec<u8>,
    byte: u8,
) -> Result<Option<Part>, NoMemory>
    requires { IsDecoded operation numbers.old.items part bytes.old.items }
    ensures adds { IfOk result (λ next. Adds operation numbers.old.items part bytes.old.items byte numbers.new.items bytes.new.items next) }
    ensures numbers { OnErr result (numbers.new.items ≡ numbers.old.items) }
    ensures bytes { OnErr result (bytes.new.items ≡ bytes.old.items) }
{
    match part {
        Part::Number(number) if byte == b' ' => Ok(end_number(operation, numbers, number)),
        Part::Number(number) => match more_digits(number, byte) {
            Some(more) => Ok(Some(Part::Number(Some(more)))),
            None => Ok(None),
        },
        Part::Dash => Ok(None),
        Part::Digits(None) => Ok(first_digit(bytes.is_empty(), byte)),
        Part::Digits(Some(high)) => match pair(high, byte) {
            None => Ok(None),
            Some(whole) => match bytes.push(whole) {
                Ok(()) => Ok(Some(Part::Digits(None))),
                Err(_) => Err(NoMemory),
            },
        },
    }
}

impl Fields {
    /// The fields of an operation, of which nothing has come, and the first of them begins.
    pub fn of(alloc: Global, operation: Operation, part: Part) -> Fields
        requires worded { HasWord operation (command_of operation) }
        requires first { IsFieldBehind operation 0 (Some part) }
        ensures { result ≡ command_of operation ++ 32 ∷ [] }
    {
        Fields {
            operation,
            numbers: ArrayVec::new(),
            part,
            bytes: Vec::new(alloc),
        }
    }

    // One more byte of the line. Says whether the line may still be a request.
    #[inline(never)]
    fn add(&mut self, byte: u8) -> Result<bool, NoMemory>
        ensures adds { IfOk result (λ goes. AddsByte self.old byte self.new goes) }
        ensures plain { IsPlain self.new }
    {
        let next = next_part(
            self.operation,
            &mut self.numbers,
            self.part,
            &mut self.bytes,
            byte,
        )?;
        match next {
            Some(part) => {
                self.part = part;
                Ok(true)
            }
            None => Ok(false),
        }
    }

    // Takes pairs of hex digits, or a number's digits and its end, off the front of a piece. Answers how many bytes they are: none
    // where the first one is neither.
    fn take_run(&mut self, piece: &[u8]) -> Result<usize, NoMemory>
        ensures takes { IfOk result (λ count. TakesRun self.old piece.now self.new count) }
        ensures plain { IsPlain self.new }
    {
        match self.part {
            Part::Digits(None) => {
                let digits = pairs_of(piece);
                push_pairs(&mut self.bytes, digits)?;
                Ok(digits.len())
            }
            Part::Number(number) => {
                let taken = take_number(self.operation, &mut self.numbers, number, piece);
                self.part = taken.part;
                Ok(taken.count)
            }
            _ => Ok(0),
        }
    }

    /// Takes all bytes of a piece. Answers how many they are, or none where the line is no request, however it goes on.
    pub fn take(&mut self, piece: &[u8]) -> Result<Option<usize>, NoMemory>
        requires { 0 < length piece.now }
        ensures { IfOk result (λ count. Takes script_lines self.old piece.now self.new count) }
    {
        let mut taken = 0;
        'piece: while taken < piece.len() {
            match self.take_part(&piece[taken..])? {
                Some(count) => taken += count,
                None => return Ok(None),
            }
        }
        Ok(Some(taken))
    }

    // Takes bytes of the line off the front of a piece: a run of digits, or one byte. Answers how many, or none where the line is no
    // request, however it goes on.
    fn take_part(&mut self, piece: &[u8]) -> Result<Option<usize>, NoMemory>
        requires { 0 < length piece.now }
        ensures { IfOk result (λ count. Takes script_lines self.old piece.now self.new count) }
    {
        let count = self.take_run(piece)?;
        if count > 0 {
            return Ok(Some(count));
        }
        if self.add(piece[0])? {
            return Ok(Some(1));
        }
        Ok(None)
    }

    /// The request that the line spells, if it spells one, now that it has ended.
    pub fn into_request(self) -> Option<Request>
        ensures { result ≡ request_of (fields_of self) }
    {
        let Fields {
            operation,
            mut numbers,
            part,
            bytes,
        } = self;
        match part {
            Part::Number(Some(number)) => {
                if field_behind(operation, numbers.len() + 1).is_some() {
                    return None;
                }
                numbers.push(number);
                operation.request(numbers.as_slice(), Bytes::of(bytes))
            }
            Part::Number(None) => None,
            Part::Dash => operation.request(numbers.as_slice(), Bytes::of(bytes)),
            Part::Digits(None) => {
                if bytes.is_empty() {
                    return None;
                }
                operation.request(numbers.as_slice(), Bytes::of(bytes))
            }
            Part::Digits(Some(_)) => None,
        }
    }
}
