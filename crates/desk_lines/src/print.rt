// The lines that the desk prints.
ghost use Rattle.std.specs.Prelude.{◌≡◌, ◌+◌, ◌≤◌, length};
ghost use Rattle.rows.specs.Outcome.{outcome};
ghost use Rattle.desk_lines.specs.Printed.{printed_field, longest_printed, printed, written_over};

// Writes a number and the byte after it from a place on. Tells the place after them.
pub fn field(out: &mut [u8], at: usize, n: u64, after: u8) -> usize
    requires { at + 21 ≤ length out.old }
    ensures { outcome result out.new ≡ written_over (printed_field n after) at out.old }
{
    let end = decimal::put(out, at, n);
    out[end] = after;
    end + 1
}

// Writes a line's number, a code and a wait from a place on. Tells the place after them.
pub fn line(out: &mut [u8], at: usize, number: u64, code: u64, wait: u64) -> usize
    requires { at + longest_printed ≤ length out.old }
    ensures { outcome result out.new ≡ written_over (printed number code wait) at out.old }
{
    let second = field(out, at, number, b' ');
    let third = field(out, second, code, b' ');
    field(out, third, wait, b'\n')
}
