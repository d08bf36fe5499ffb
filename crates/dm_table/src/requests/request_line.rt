//! Reads request lines: `R DEV START LEN` and `W DEV START LEN`.
//!
//! There may be hundreds of millions of request lines, so each is cut in place, without allocating.
//! `specs/requests/RequestLine.antt` defines what a request line means: change that file first.
//!
//! There are two readers. `parse_request` reads any line, and returns the fault of a bad one. `first_op` and
//! `front_request` read valid lines from a buffer, for speed alone: RESULTS.md has their gain as *requests read
//! where they stand*, and that of `first_op` as *a request's letter known by its last bit*. They need `FRONT` bytes
//! after the start of each number, so that they needn't look for the end of the text, and give up on other lines.
//! Change `first_op` and `front_request` only if you measure small requests, in instructions and jumps.

ghost use Rattle.dm_table.specs.Prelude.{ℕ, List, [], length, take, drop, Some, Ok, Err, true, false, IfSome, IfNone, IsOkAnd, IfOk, IfErr, Op, Form, Number, is_device_name, number_of, fields, RequestValues, DescribesRequest, IsFront, AreNumbers, values_of, op_text, has_form, are_two, request_reading, code};
ghost use Rattle.dm_table.specs.declared.words.front_digits.TheConstants.{FRONT};
ghost use Rattle.std.specs.Prelude.{◌≡◌, ◌≢◌, ◌+◌, ◌<◌, ◌≤◌, ◌∷◌, ◌++◌, if◌then◌else◌};

use crate::requests::request::{MOST_SECTORS, Op, Request, RequestFault};
use crate::words::device_name::leading_name;
use crate::words::front_digits::{FRONT, read_front};
use crate::words::name::ascii_str;
use crate::words::number;
use memchr::memchr;

/// The most bytes that two numbers have, each with the separator after it. If that many bytes are left in a text,
/// both numbers can be read without checking for the end of the text.
const NUMBERS_ROOM: usize = 2 * FRONT;

/// The bytes of a text after the first `len` bytes and a space, or `None` if no space follows those `len` bytes.
#[inline(always)]
fn after_space<'a>(text: &'a [u8], len: usize) -> Option<&'a [u8]>
    requires { len ≤ length text.now }
    ensures cut { IfSome result (λ rest. text.now ≡ take len text.now ++ code " " ∷ rest.now) }
    ensures other { IfNone result ((rest : List ℕ) → drop len text.now ≢ code " " ∷ rest) }
{
    match &text[len..] {
        [b' ', rest @ ..] => Some(rest),
        _ => None,
    }
}

/// The operation for a letter, `R` or `W`.
///
/// The letter's last bit, which is 1 for `W` and 0 for `R`, decides instead of two comparisons: compilers turn two
/// comparisons into a jump, and a processor predicts only half of these jumps right.
#[inline(always)]
fn op_of(letter: u8) -> Option<Op>
    ensures named { IfSome result (λ op. letter ≡ op_text op) }
    ensures other { IfNone result ((op : Op) → letter ≢ op_text op) }
{
    let last = letter % 2;
    if letter != b'R' + last * (b'W' - b'R') {
        return None;
    }
    Some(if last == 1 { Op::Write } else { Op::Read })
}

/// The operation at the start of a request line, and the text after the space that follows.
#[inline(always)]
pub fn first_op<'a>(line: &'a [u8]) -> Option<(Op, &'a [u8])>
    ensures cut { IfSome result (λ cut. fields line.now ≡ (op_text cut.0 ∷ []) ∷ fields cut.1.now) }
    ensures text { IfSome result (λ cut. line.now ≡ op_text cut.0 ∷ code " " ∷ cut.1.now) }
    ensures other { IfNone result (has_form (fields line.now) ≡ false) }
{
    if line.len() < 2 {
        return None;
    }
    let op = op_of(line[0])?;
    let rest = after_space(line, 1)?;
    Some((op, rest))
}

/// The device name in the first field of a text, and the text after the space that follows.
#[inline(always)]
fn first_name<'a>(text: &'a [u8]) -> Option<(&'a str, &'a [u8])>
    ensures cut { IfSome result (λ cut. fields text.now ≡ cut.0.now ∷ fields cut.1.now) }
    ensures text { IfSome result (λ cut. text.now ≡ cut.0.now ++ code " " ∷ cut.1.now) }
    ensures named { IfSome result (λ cut. is_device_name cut.0.now ≡ true) }
    ensures other { IfNone result ((name next : List ℕ) (more : List (List ℕ))
        → fields text.now ≡ name ∷ next ∷ more → is_device_name name ≢ true) }
{
    let len = leading_name(text)?;
    let rest = after_space(text, len)?;
    Some((ascii_str(&text[..len]), rest))
}

/// The number in the first field of a text, and the text after the space that follows.
#[inline(always)]
fn first_number<'a>(text: &'a [u8]) -> Option<(u64, &'a [u8])>
    ensures cut { IfSome result (λ cut. (field : List ℕ) × (fields text.now ≡ field ∷ fields cut.1.now)
        × (number_of field ≡ Some cut.0)) }
    ensures text { IfSome result (λ cut. (field : List ℕ) × (text.now ≡ field ++ code " " ∷ cut.1.now)
        × (number_of field ≡ Some cut.0)) }
    ensures other { IfNone result ((field next : List ℕ) (more : List (List ℕ)) (n : ℕ)
        → fields text.now ≡ field ∷ next ∷ more → number_of field ≢ Some n) }
{
    let (number, len) = number::leading(text)?;
    let rest = after_space(text, len)?;
    Some((number, rest))
}

/// The operation and the device at the start of a request line, and the text after the space that follows both.
#[inline(always)]
fn head<'a>(line: &'a [u8]) -> Option<(Op, &'a str, &'a [u8])>
    ensures cut { IfSome result
        (λ cut. fields line.now ≡ (op_text cut.0 ∷ []) ∷ cut.1.now ∷ fields cut.2.now) }
    ensures text { IfSome result
        (λ cut. line.now ≡ op_text cut.0 ∷ code " " ∷ (cut.1.now ++ code " " ∷ cut.2.now)) }
    ensures named { IfSome result (λ cut. is_device_name cut.1.now ≡ true) }
    ensures other { IfNone result (has_form (fields line.now) ≡ false) }
{
    let (op, rest) = first_op(line)?;
    let (device, rest) = first_name(rest)?;
    Some((op, device, rest))
}

/// The two numbers that a text of two fields spells, or `None` if the text isn't two numbers.
fn two_numbers(text: &[u8]) -> Option<(u64, u64)>
    ensures cut { IfSome result (λ read. AreNumbers (fields text.now) read.0 read.1) }
    ensures other { IfNone result ((m n : ℕ) → AreNumbers (fields text.now) m n → ⊥) }
{
    let (start, rest) = first_number(text)?;
    let len = number::number(rest)?;
    Some((start, len))
}

/// The fault of a request line in which `text`, after the device, isn't two numbers: `Number` if it is two nonempty
/// fields, else `Form`.
fn number_fault(text: &[u8]) -> RequestFault
    ensures { result ≡ (if are_two (fields text.now) then Number else Form) }
{
    let Some(end) = memchr(b' ', text) else {
        return RequestFault::Form;
    };
    let len = &text[end + 1..];
    if end == 0 || len.is_empty() {
        return RequestFault::Form;
    }
    match memchr(b' ', len) {
        Some(_) => RequestFault::Form,
        None => RequestFault::Number,
    }
}

/// Reads line `number` of a request stream, without its newline, as a request.
///
/// A line is a request exactly if it consists of `R` or `W`, a device name, a start below 10^19, and a length of 1 to
/// [`MOST_SECTORS`] sectors of 512 bytes, with single spaces between them; numbers are decimal without leading
/// zeros. No line describes two different requests.
///
/// For any other line, the fault is the first of `Form`, `Number` and `Length` that applies.
///
/// Cost: no allocation, and at most three passes over each field.
pub fn parse_request<'a>(line: &'a [u8], number: u64) -> Result<Request<'a>, RequestFault>
    // An accepted line describes the request that is returned.
    ensures accepted { IfOk result (λ request. DescribesRequest line.now (values_of request)) }
    ensures numbered { IfOk result (λ request. request.number ≡ number) }
    ensures read { IfOk result (λ request. request_reading line.now ≡ Ok (values_of request)) }
    // Every line that describes a request is accepted, and describes no other request.
    ensures only { (values : RequestValues) → DescribesRequest line.now values
        → IsOkAnd result (λ request. values_of request ≡ values) }
    ensures unique { (a b : RequestValues) → DescribesRequest line.now a → DescribesRequest line.now b
        → a ≡ b }
    // The fault of a refused line is the first of `Form`, `Number` and `Length` that applies.
    ensures fault { IfErr result (λ fault. request_reading line.now ≡ Err fault) }
    // The value of `MOST_SECTORS`, for readers of this contract.
    ensures limit { MOST_SECTORS ≡ 1048576 }
{
    let Some((op, device, rest)) = head(line) else {
        return Err(RequestFault::Form);
    };
    let Some((start, len)) = two_numbers(rest) else {
        return Err(number_fault(rest));
    };
    if len == 0 || len > MOST_SECTORS {
        return Err(RequestFault::Length);
    }
    Ok(Request {
        number,
        op,
        device,
        start,
        len,
    })
}

/// The number at the front of a text of at least `FRONT` bytes, and the text after the space that follows.
#[inline(always)]
fn front_number<'a>(text: &'a [u8]) -> Option<(u64, &'a [u8])>
    requires { FRONT ≤ length text.now }
    ensures text { IfSome result (λ cut. (field : List ℕ) × (text.now ≡ field ++ code " " ∷ cut.1.now)
        × (number_of field ≡ Some cut.0)) }
    ensures short { IfSome result (λ cut. length text.now ≤ length cut.1.now + FRONT) }
{
    let (number, len) = read_front(text)?;
    if text[len] == b' ' {
        Some((number, &text[len + 1..]))
    } else {
        None
    }
}

/// The length at the front of a text of at least `FRONT` bytes, and the offset of the newline that follows.
#[inline(always)]
fn last_number(text: &[u8]) -> Option<(u64, usize)>
    requires { FRONT ≤ length text.now }
    ensures within { IfSome result (λ read. read.1 < length text.now) }
    ensures newline { IfSome result
        (λ read. text.now ≡ take read.1 text.now ++ code "\n" ∷ drop (read.1 + 1) text.now) }
    ensures number { IfSome result (λ read. number_of (take read.1 text.now) ≡ Some read.0) }
{
    let (number, len) = read_front(text)?;
    if text[len] == b'\n' {
        Some((number, len))
    } else {
        None
    }
}

/// Reads the request line at the front of `text`, which may contain more lines; the line's operation and device have
/// been read already. Returns the request, as line `number` of the stream, and the line's length in bytes.
///
/// `None` doesn't mean that the line is bad: it may be incomplete, too close to the end of the text, or have a number
/// of `FRONT` digits or more. [`parse_request`] then reads the line or finds its fault.
///
/// Cost: no allocation, and one pass over the numbers.
#[inline(always)]
pub fn front_request<'a>(
    text: &[u8],
    op: Op,
    device: &'a [u8],
    rest: &[u8],
    number: u64,
) -> Option<(Request<'a>, usize)>
    requires text { text.now ≡ op_text op ∷ code " " ∷ (device.now ++ code " " ∷ rest.now) }
    requires named { is_device_name device.now ≡ true }
    // The first line of the text describes the request that is returned.
    ensures front { IfSome result (λ front. IsFront text.now (values_of front.0) front.1) }
    ensures numbered { IfSome result (λ front. front.0.number ≡ number) }
    ensures device { IfSome result (λ front. front.0.device.now ≡ device.now) }
{
    if rest.len() < NUMBERS_ROOM {
        return None;
    }
    let (start, last) = front_number(rest)?;
    let (len, digits) = last_number(last)?;
    if len < 1 || MOST_SECTORS < len {
        return None;
    }
    let request = Request {
        number,
        op,
        device: ascii_str(device),
        start,
        len,
    };
    Some((request, text.len() - last.len() + digits))
}
