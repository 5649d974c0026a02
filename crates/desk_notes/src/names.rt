// The names of the fields, as the help has them.
ghost use Rattle.std.specs.Prelude.{◌≤◌, length};

use crate::words;

// The name of a field, by the line's letter and the field's number; nothing where it has none.
pub(crate) fn add(note: &mut [u8], at: usize, letter: u8, n: usize) -> usize
    requires { at ≤ length note.old }
    ensures { result ≤ length note.new }
{
    match letter {
        b's' => of_settings(note, at, n),
        b'a' | b'p' => of_request(note, at, n),
        b'r' => of_reservation(note, at, n),
        b'f' => of_refund(note, at, n),
        b'd' => of_removal(note, at, n),
        _ => at,
    }
}

fn of_request(note: &mut [u8], at: usize, n: usize) -> usize
    requires { at ≤ length note.old }
    ensures { result ≤ length note.new }
{
    match n {
        2 => words::add(note, at, b" (now)"),
        3 => words::add(note, at, b" (modem)"),
        4 => words::add(note, at, b" (cost)"),
        _ => at,
    }
}

fn of_reservation(note: &mut [u8], at: usize, n: usize) -> usize
    requires { at ≤ length note.old }
    ensures { result ≤ length note.new }
{
    match n {
        5 => words::add(note, at, b" (max-wait)"),
        _ => of_request(note, at, n),
    }
}

fn of_refund(note: &mut [u8], at: usize, n: usize) -> usize
    requires { at ≤ length note.old }
    ensures { result ≤ length note.new }
{
    match n {
        3 => words::add(note, at, b" (cost)"),
        _ => of_removal(note, at, n),
    }
}

fn of_removal(note: &mut [u8], at: usize, n: usize) -> usize
    requires { at ≤ length note.old }
    ensures { result ≤ length note.new }
{
    match n {
        2 => words::add(note, at, b" (modem)"),
        _ => at,
    }
}

fn of_settings(note: &mut [u8], at: usize, n: usize) -> usize
    requires { at ≤ length note.old }
    ensures { result ≤ length note.new }
{
    match n {
        2 => words::add(note, at, b" (amount)"),
        3 => words::add(note, at, b" (period)"),
        4 => words::add(note, at, b" (burst)"),
        5 => words::add(note, at, b" (initial)"),
        6 => words::add(note, at, b" (modems)"),
        7 => words::add(note, at, b" (shards)"),
        8 => words::add(note, at, b" (idle)"),
        9 => words::add(note, at, b" (when-full)"),
        _ => at,
    }
}
