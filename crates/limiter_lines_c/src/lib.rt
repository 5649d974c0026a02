// The writers of desk lines for C and Rust: the exports of `limiter_lines`, each with the clauses of the function that it calls.
#![tactic(auto)]

ghost use Rattle.std.specs.Prelude.{◌≡◌};
ghost use Rattle.rows.specs.Outcome.{outcome};
ghost use Rattle.units.specs.Units.{nanos_of};
ghost use Rattle.desk_writer.specs.declared.DeskCall.TheVariants.{Try, Peek, Reserve, Refund, Remove};
ghost use Rattle.limiter_lines.specs.Lines.{request_of, told_written};

use rules::codes::Told;

// The line of a try at the moment `at`.
#[unsafe(no_mangle)]
pub extern "C" fn limiter_line_try(out: &mut [u8], at: u64, key: u64, cost: u32) -> Told
    ensures { outcome result out.new ≡ told_written (Try (request_of at key cost)) out.old }
{
    limiter_lines::limiter_line_try(out, at, key, cost)
}

// The line of a peek.
#[unsafe(no_mangle)]
pub extern "C" fn limiter_line_peek(out: &mut [u8], at: u64, key: u64, cost: u32) -> Told
    ensures { outcome result out.new ≡ told_written (Peek (request_of at key cost)) out.old }
{
    limiter_lines::limiter_line_peek(out, at, key, cost)
}

// The line of a reservation.
#[unsafe(no_mangle)]
pub extern "C" fn limiter_line_reserve(
    out: &mut [u8],
    at: u64,
    key: u64,
    cost: u32,
    max_wait: u64,
) -> Told
    ensures { outcome result out.new ≡ told_written (Reserve (request_of at key cost) (nanos_of max_wait)) out.old }
{
    limiter_lines::limiter_line_reserve(out, at, key, cost, max_wait)
}

// The line of a refund.
#[unsafe(no_mangle)]
pub extern "C" fn limiter_line_refund(out: &mut [u8], key: u64, cost: u32) -> Told
    ensures { outcome result out.new ≡ told_written (Refund key cost) out.old }
{
    limiter_lines::limiter_line_refund(out, key, cost)
}

// The line of a removal.
#[unsafe(no_mangle)]
pub extern "C" fn limiter_line_remove(out: &mut [u8], key: u64) -> Told
    ensures { outcome result out.new ≡ told_written (Remove key) out.old }
{
    limiter_lines::limiter_line_remove(out, key)
}
