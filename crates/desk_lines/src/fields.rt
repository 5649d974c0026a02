// The fields of a line, taken one after the other.
ghost use Rattle.std.specs.Prelude.{◌≡◌, ◌+◌, ◌≤◌, eqb, is_some, length};
ghost use Rattle.desk_lines.specs.Fields.{field_end, fields_from};
ghost use Rattle.desk_lines.specs.Lines.{left, most32};
ghost use Rattle.desk_lines.specs.Lines as Lines;
ghost use Rattle.desk_lines.specs.Parts.{Tells};

use std::marker::Model;
use units::Nanos;

// The largest number of 32 bits.
const MOST_32: u64 = 0xffff_ffff;

// The one byte that stands for no idle time.
const DASH: u8 = b'-';

// The fields of a line that are still to be taken: the next one begins at the place, which is one past the end of the line if none is left.
// A clause sees the fields. A field that is not what was asked for ends the reading: the caller returns at once, and takes no other field.
#[derive(Drop)]
pub(crate) struct Fields<'a> {
    line: &'a [u8],
    at: usize,
}

impl<'a> Model for Fields<'a> {
    ghost use Rattle.std.specs.Prelude.{List, ℕ};
    ghost use Rattle.desk_lines.specs.Fields.{fields_from};

    ghost Value = { List (List ℕ) };

    ghost view = { λ f. fields_from f.line.now f.at };
}

// Where the field that begins at a place ends: at the first space from there on, or at the end of the line.
pub(crate) fn end(line: &[u8], from: usize) -> usize
    requires { from ≤ length line.now }
    ensures { result ≡ field_end line.now from }
{
    scan::find(line, from, line.len(), b' ')
}

// Whether a field ends at a place: at a space, or at the end of the line.
fn ends_at(line: &[u8], place: usize) -> bool
    requires { place ≤ length line.now }
    ensures { result ≡ eqb (field_end line.now place) place }
{
    place == line.len() || line[place] == b' '
}

impl<'a> Fields<'a> {
    // The fields of a line from a place on.
    pub(crate) fn new(line: &'a [u8], at: usize) -> Fields<'a>
        ensures { result ≡ fields_from line.now at }
    {
        Fields { line, at }
    }

    // The next field as a number of at most `most`. Up to 19 digits are read in one pass. It is inlined to keep the place in a register.
    #[inline]
    pub(crate) fn number(&mut self, most: u64) -> Option<u64>
        ensures { Tells result self.new (Lines.taken most (left self.old)) }
    {
        let line = self.line;
        let at = self.at;
        if line.len() < at {
            return None;
        }
        let front = decimal::front(line, at);
        if at < front.end && ends_at(line, front.end) {
            self.at = front.end + 1;
            return decimal::at_most(front.value, most);
        }
        let end = end(line, at);
        self.at = end + 1;
        decimal::number(&line[at..end], most)
    }

    // The next field as a number of 32 bits.
    pub(crate) fn number_u32(&mut self) -> Option<u32>
        ensures { Tells result self.new (Lines.taken most32 (left self.old)) }
    {
        let number = self.number(MOST_32)?;
        Some(number as u32)
    }

    // Whether the next field is the one byte `-`.
    fn is_dash(&self) -> bool
        ensures { result ≡ Lines.dash_next (left self.now) }
    {
        let line = self.line;
        let at = self.at;
        at < line.len() && line[at] == DASH && end(line, at) == at + 1
    }

    // The next field as an idle time.
    pub(crate) fn idle(&mut self) -> Option<Option<Nanos>>
        ensures { Tells result self.new (Lines.taken_idle (left self.old)) }
    {
        if self.is_dash() {
            self.at += 2;
            return Some(None);
        }
        let nanos = self.number(u64::MAX)?;
        Some(Some(Nanos(nanos)))
    }

    // The end of the reading, if no field is left.
    pub(crate) fn finish(self) -> Option<()>
        ensures { is_some result ≡ Lines.is_finished (left self.entry) }
    {
        (self.line.len() < self.at).then_some(())
    }
}
