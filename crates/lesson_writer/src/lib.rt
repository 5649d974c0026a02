// Settings lines written from what a lesson means: the bytes that the desk reads as these settings, LF at the end, in a lent buffer.
#![tactic(auto)]

ghost use Rattle.std.specs.Prelude.{◌≡◌, [], ◌∷◌, ◌+◌, ◌≤◌, length};
ghost use Rattle.rows.specs.Outcome.{outcome};
ghost use Rattle.desk_lines.specs.Printed.{written_over};
ghost use Rattle.lesson_writer.specs.Lines.{idle_printed, four_printed, room_printed, limits_line};

use desk_lines::print;
use lesson_lines::Limits;

// The bytes of a buffer in which every settings line has room.
pub const LIMITS_BYTES: usize = 170;

// Puts a settings line at the start of a buffer. Tells the place after it.
pub fn put_limits(out: &mut [u8], limits: Limits) -> usize
    requires { 170 ≤ length out.old }
    ensures { outcome result out.new ≡ written_over (limits_line limits) 0 out.old }
{
    let idle = limits.idle;
    let at = put_letter(out);
    let at = put_four(
        out,
        at,
        limits.amount as u64,
        limits.period,
        limits.burst as u64,
        limits.initial as u64,
    );
    put_room(
        out,
        at,
        limits.modems,
        limits.shards,
        idle,
        limits.when_full,
    )
}

// Puts `s` and a space.
fn put_letter(out: &mut [u8]) -> usize
    requires { 2 ≤ length out.old }
    ensures { outcome result out.new ≡ written_over (115 ∷ 32 ∷ []) 0 out.old }
{
    out[0] = b's';
    out[1] = b' ';
    2
}

// Puts four numbers, each with a space behind it, from a place on. Tells the place after them.
fn put_four(out: &mut [u8], at: usize, a: u64, b: u64, c: u64, d: u64) -> usize
    requires { at + 84 ≤ length out.old }
    ensures { outcome result out.new ≡ written_over (four_printed a b c d) at out.old }
{
    let at = print::field(out, at, a, b' ');
    let at = print::field(out, at, b, b' ');
    let at = print::field(out, at, c, b' ');
    print::field(out, at, d, b' ')
}

// Puts the numbers of modems and shards, the idle time and the rule when full, from a place on. Tells the place after them.
fn put_room(
    out: &mut [u8],
    at: usize,
    modems: u64,
    shards: u64,
    idle: Option<u64>,
    rule: u64,
) -> usize
    requires { at + 84 ≤ length out.old }
    ensures { outcome result out.new ≡ written_over (room_printed modems shards idle rule) at out.old }
{
    let at = print::field(out, at, modems, b' ');
    let at = print::field(out, at, shards, b' ');
    let at = put_idle(out, at, idle);
    print::field(out, at, rule, b'\n')
}

// Puts an idle time with a space behind it, from a place on. Tells the place after it.
fn put_idle(out: &mut [u8], at: usize, idle: Option<u64>) -> usize
    requires { at + 21 ≤ length out.old }
    ensures { outcome result out.new ≡ written_over (idle_printed idle) at out.old }
{
    match idle {
        Some(n) => print::field(out, at, n, b' '),
        None => put_dash(out, at),
    }
}

// Puts `-` and a space.
fn put_dash(out: &mut [u8], at: usize) -> usize
    requires { at + 2 ≤ length out.old }
    ensures { outcome result out.new ≡ written_over (45 ∷ 32 ∷ []) at out.old }
{
    out[at] = b'-';
    let next = at + 1;
    out[next] = b' ';
    at + 2
}
