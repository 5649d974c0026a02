// What is wrong with a field that is not what it has to be.
ghost use Rattle.std.specs.Prelude.{◌≡◌};
ghost use Rattle.decimal.specs.Decimal.{is_digit, all_digits};
ghost use Rattle.desk_reasons.specs.Reasons as Reasons;

use crate::Fault;
use crate::kinds::Kind;

// What is wrong with a first field that is no letter of the desk.
pub(crate) fn of_letter(field: &[u8]) -> Fault
    ensures { result ≡ Reasons.letter_fault field.now }
{
    if is_marked(field) {
        return Fault::Mark;
    }
    seen(field, Fault::Letter)
}

// What is wrong with a field that is not of its kind.
pub(crate) fn of_field(kind: Option<Kind>, field: &[u8]) -> Fault
    ensures { result ≡ Reasons.field_fault kind field.now }
{
    seen(field, of_kind(kind, field))
}

fn of_kind(kind: Option<Kind>, field: &[u8]) -> Fault
    ensures { result ≡ Reasons.kind_fault kind field.now }
{
    match kind {
        None => Fault::Extra,
        Some(Kind::Number(most)) => of_number(most, field),
        Some(Kind::Idle) => of_number(u64::MAX, field),
    }
}

// Digits that are no number are too many, or more than a number may be.
fn of_number(most: u64, field: &[u8]) -> Fault
    ensures { result ≡ Reasons.number_fault most field.now }
{
    if all_digits(field) {
        if field.len() <= 20 {
            return Fault::Large(most);
        }
        return Fault::Long;
    }
    Fault::Digits
}

// What is wrong with a field at sight: no byte, a CR or a tab. Else what is given.
fn seen(field: &[u8], otherwise: Fault) -> Fault
    ensures { result ≡ Reasons.seen field.now otherwise }
{
    if field.is_empty() {
        return Fault::Empty;
    }
    if has(field, b'\r') {
        return Fault::Return;
    }
    if has(field, b'\t') {
        return Fault::Tab;
    }
    otherwise
}

// Whether a byte is in a field.
fn has(field: &[u8], byte: u8) -> bool
    ensures { result ≡ Reasons.has byte field.now }
{
    scan::find(field, 0, field.len(), byte) < field.len()
}

// Whether a field begins with the three bytes of a byte order mark.
#[tactic(auto, unfolding(crate::specs::Reasons::is_marked))]
fn is_marked(field: &[u8]) -> bool
    ensures { result ≡ Reasons.is_marked field.now }
{
    matches!(field, [0xef, 0xbb, 0xbf, ..])
}

// Whether all bytes of a field are digits.
fn all_digits(field: &[u8]) -> bool
    ensures { result ≡ all_digits field.now }
{
    for byte in field {
        if !is_digit(*byte) {
            return false;
        }
    }
    true
}

#[tactic(auto, unfolding(decimal::specs::Decimal::is_digit))]
fn is_digit(byte: u8) -> bool
    ensures { result ≡ is_digit byte }
{
    matches!(byte, b'0'..=b'9')
}
