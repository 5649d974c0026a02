// Desk lines for callers in C and Rust: a function for each kind of call, which writes its line into a lent buffer. The number told is the
// line's length in bytes, LF counted. A buffer that is shorter is refused as 13, told as code 23, and no byte of it changes.
// It is a separate crate so that it becomes a separate object: a program that writes no desk line links none of it.
#![tactic(auto)]

ghost use Rattle.std.specs.Prelude.{◌≡◌};
ghost use Rattle.rows.specs.Outcome.{outcome};
ghost use Rattle.units.specs.Units.{nanos_of};
ghost use Rattle.desk_writer.specs.declared.DeskCall.TheVariants.{Try, Peek, Reserve, Refund, Remove};
ghost use Rattle.limiter_lines.specs.Lines.{request_of, line_told, told_written};

use desk_lines::Request;
use desk_writer::{DeskCall, Written};
use rules::codes::Told;
use units::Nanos;

// The line of a try at the moment `at`.
pub fn limiter_line_try(out: &mut [u8], at: u64, key: u64, cost: u32) -> Told
    ensures { outcome result out.new ≡ told_written (Try (request_of at key cost)) out.old }
{
    tell(desk_writer::write(DeskCall::Try(request(at, key, cost)), out))
}

// The line of a peek.
pub fn limiter_line_peek(out: &mut [u8], at: u64, key: u64, cost: u32) -> Told
    ensures { outcome result out.new ≡ told_written (Peek (request_of at key cost)) out.old }
{
    tell(desk_writer::write(DeskCall::Peek(request(at, key, cost)), out))
}

// The line of a reservation.
pub fn limiter_line_reserve(out: &mut [u8], at: u64, key: u64, cost: u32, max_wait: u64) -> Told
    ensures { outcome result out.new ≡ told_written (Reserve (request_of at key cost) (nanos_of max_wait)) out.old }
{
    tell(desk_writer::write(
        DeskCall::Reserve(request(at, key, cost), Nanos(max_wait)),
        out,
    ))
}

// The line of a refund.
pub fn limiter_line_refund(out: &mut [u8], key: u64, cost: u32) -> Told
    ensures { outcome result out.new ≡ told_written (Refund key cost) out.old }
{
    tell(desk_writer::write(DeskCall::Refund(key, cost), out))
}

// The line of a removal.
pub fn limiter_line_remove(out: &mut [u8], key: u64) -> Told
    ensures { outcome result out.new ≡ told_written (Remove key) out.old }
{
    tell(desk_writer::write(DeskCall::Remove(key), out))
}

// The request that the numbers are.
fn request(at: u64, key: u64, cost: u32) -> Request
    ensures { result ≡ request_of at key cost }
{
    Request {
        at: Nanos(at),
        key,
        cost,
    }
}

// What is told of a line.
fn tell(written: Written) -> Told
    ensures { result ≡ line_told written }
{
    if written.number == 0 {
        return Told {
            code: 0,
            number: written.size as u64,
            moment: 0,
        };
    }
    Told {
        code: 10 + desk_writer::TOO_SHORT,
        number: written.size as u64,
        moment: 0,
    }
}
