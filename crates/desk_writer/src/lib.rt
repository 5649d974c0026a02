// Desk lines written from calls: the bytes that the desk program reads as a call, LF at the end, stored in a lent buffer.
#![tactic(auto)]

ghost use Rattle.std.specs.Prelude.{◌≡◌, [], ◌∷◌, ◌+◌, ◌≤◌, ◌<◌, length, set};
ghost use Rattle.rows.specs.Outcome.{outcome};
ghost use Rattle.desk_lines.specs.Printed.{line_feed, written_over};
ghost use Rattle.desk_writer.specs.declared.DeskCall.TheVariants.{Reserve, Refund, Remove};
ghost use Rattle.desk_writer.specs.Writer.{field, spaced, request_numbers, bytes_of, written_line, written};

use desk_lines::Request;
use units::Nanos;

// A call that a line can be written for.
#[derive(Clone, Copy)]
pub enum DeskCall {
    Try(Request),
    Peek(Request),
    // With the longest wait.
    Reserve(Request, Nanos),
    // The key and the cost.
    Refund(u64, u32),
    // The key.
    Remove(u64),
}

// What a writer tells: 0 and how many bytes the line has with its LF, or the number of a refusal and 0.
#[derive(Clone, Copy)]
pub struct Written {
    pub number: u64,
    pub size: usize,
}

// The most bytes that a line has, with its LF. A buffer of this length is never refused (`longest_buffer_is_not_refused`).
pub const LONGEST_WRITTEN: usize = 76;

// The refusal of a buffer that is shorter than the line.
pub const TOO_SHORT: u64 = 13;

// Writes a call's line at the start of a buffer. The bytes past it stay, and a refusal changes none.
pub fn write(call: DeskCall, out: &mut [u8]) -> Written
    ensures { outcome result out.new ≡ written call out.old }
{
    let size = size(call);
    if out.len() < size {
        return Written {
            number: TOO_SHORT,
            size: 0,
        };
    }
    let end = put(out, call);
    put_end(out, end);
    Written { number: 0, size }
}

// Stores the LF at the place after a call's bytes, and no other byte.
fn put_end(out: &mut [u8], end: usize)
    requires { end < length out.old }
    ensures { out.new ≡ set out.old end line_feed }
{
    out[end] = b'\n';
}

// How many bytes a call's line has, with its LF.
pub fn size(call: DeskCall) -> usize
    ensures { result ≡ length (written_line call) }
{
    match call {
        DeskCall::Try(request) => 2 + request_size(request),
        DeskCall::Peek(request) => 2 + request_size(request),
        DeskCall::Reserve(request, max_wait) => 2 + request_size(request) + field_size(max_wait.0),
        DeskCall::Refund(key, cost) => 2 + field_size(key) + field_size(cost as u64),
        DeskCall::Remove(key) => 2 + field_size(key),
    }
}

// How many bytes a number has, with the space in front.
fn field_size(n: u64) -> usize
    ensures { (result ≡ length (field n)) × (result ≤ 21) }
{
    1 + decimal::width(n)
}

// How many bytes the moment, the key and the cost have, with their spaces.
fn request_size(request: Request) -> usize
    ensures { (result ≡ length (spaced (request_numbers request))) × (result ≤ 63) }
{
    field_size(request.at.0) + field_size(request.key) + field_size(request.cost as u64)
}

// Stores a number with a space in front from a place on. Tells the place after it.
fn put_field(out: &mut [u8], at: usize, n: u64) -> usize
    requires { at + length (field n) ≤ length out.old }
    ensures { outcome result out.new ≡ written_over (field n) at out.old }
{
    out[at] = b' ';
    decimal::put(out, at + 1, n)
}

// Stores a letter and three numbers after it. Tells the place after them.
fn put_three(out: &mut [u8], letter: u8, first: u64, second: u64, third: u64) -> usize
    requires { length (letter ∷ spaced (first ∷ second ∷ third ∷ [])) ≤ length out.old }
    ensures { outcome result out.new ≡ written_over (letter ∷ spaced (first ∷ second ∷ third ∷ [])) 0 out.old }
{
    out[0] = letter;
    let second_at = put_field(out, 1, first);
    let third_at = put_field(out, second_at, second);
    put_field(out, third_at, third)
}

// Stores a letter, and a moment, a key and a cost after it. Tells the place after them.
fn put_request(out: &mut [u8], letter: u8, request: Request) -> usize
    requires { length (letter ∷ spaced (request_numbers request)) ≤ length out.old }
    ensures { outcome result out.new ≡ written_over (letter ∷ spaced (request_numbers request)) 0 out.old }
{
    put_three(out, letter, request.at.0, request.key, request.cost as u64)
}

// Stores a reservation's line without its LF. Tells the place after it.
fn put_reserve(out: &mut [u8], request: Request, max_wait: Nanos) -> usize
    requires { length (bytes_of (Reserve request max_wait)) ≤ length out.old }
    ensures { outcome result out.new ≡ written_over (bytes_of (Reserve request max_wait)) 0 out.old }
{
    let cost = request.cost as u64;
    let wait_at = put_three(out, b'r', request.at.0, request.key, cost);
    put_field(out, wait_at, max_wait.0)
}

// Stores a refund's line without its LF. Tells the place after it.
fn put_refund(out: &mut [u8], key: u64, cost: u32) -> usize
    requires { length (bytes_of (Refund key cost)) ≤ length out.old }
    ensures { outcome result out.new ≡ written_over (bytes_of (Refund key cost)) 0 out.old }
{
    out[0] = b'f';
    let cost_at = put_field(out, 1, key);
    put_field(out, cost_at, cost as u64)
}

// Stores a removal's line without its LF. Tells the place after it.
fn put_remove(out: &mut [u8], key: u64) -> usize
    requires { length (bytes_of (Remove key)) ≤ length out.old }
    ensures { outcome result out.new ≡ written_over (bytes_of (Remove key)) 0 out.old }
{
    out[0] = b'd';
    put_field(out, 1, key)
}

// Stores a call's line without its LF. Tells the place after it.
fn put(out: &mut [u8], call: DeskCall) -> usize
    requires { length (bytes_of call) ≤ length out.old }
    ensures { outcome result out.new ≡ written_over (bytes_of call) 0 out.old }
{
    match call {
        DeskCall::Try(request) => put_request(out, b'a', request),
        DeskCall::Peek(request) => put_request(out, b'p', request),
        DeskCall::Reserve(request, max_wait) => put_reserve(out, request, max_wait),
        DeskCall::Refund(key, cost) => put_refund(out, key, cost),
        DeskCall::Remove(key) => put_remove(out, key),
    }
}
