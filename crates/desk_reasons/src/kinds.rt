// What the fields of a line have to be, by its letter.
ghost use Rattle.std.specs.Prelude.{◌≡◌, drop};
ghost use Rattle.desk_lines.specs.Lines as Lines;
ghost use Rattle.desk_reasons.specs.Reasons.{first_kind, kinds_of, request_kinds, reserve_kinds, refund_kinds, remove_kinds, set_up_kinds, letter_in};
ghost use Rattle.desk_reasons.specs.Reasons.{is_number};
ghost use Rattle.desk_reasons.specs.Reasons as Reasons;

// What a field has to be.
#[derive(Clone, Copy)]
pub enum Kind {
    // A number of at most this.
    Number(u64),
    // An idle time: a number, or `-` for none.
    Idle,
}

// The largest number of 32 bits.
const MOST_32: u64 = 0xffff_ffff;

// The letter that a field is, if it is one of the desk: a field comes after it.
#[tactic(auto, unfolding(crate::specs::Reasons::letter_in))]
pub(crate) fn letter_in(field: &[u8]) -> Option<u8>
    ensures { result ≡ letter_in field.now }
{
    if field.len() != 1 {
        return None;
    }
    let letter = field[0];
    at(letter, 0)?;
    Some(letter)
}

// What a field after a letter has to be, by its place among them, from 0; nothing where there is no such field.
#[tactic(auto, unfolding(crate::specs::Reasons::kinds_of))]
pub(crate) fn at(letter: u8, i: usize) -> Option<Kind>
    ensures { result ≡ first_kind (drop i (kinds_of letter)) }
{
    match letter {
        b'a' | b'p' => in_request(i),
        b'r' => in_reserve(i),
        b'f' => in_refund(i),
        b'd' => in_remove(i),
        b's' => in_set_up(i),
        _ => None,
    }
}

// The moment, the key, the cost.
#[tactic(auto, using(crate::proofs::KindLaws::none_past))]
fn in_request(i: usize) -> Option<Kind>
    ensures { result ≡ first_kind (drop i request_kinds) }
{
    match i {
        0 | 1 => Some(Kind::Number(u64::MAX)),
        2 => Some(Kind::Number(MOST_32)),
        _ => None,
    }
}

// The same, and the longest wait.
fn in_reserve(i: usize) -> Option<Kind>
    ensures { result ≡ first_kind (drop i reserve_kinds) }
{
    match i {
        3 => Some(Kind::Number(u64::MAX)),
        _ => in_request(i),
    }
}

// The key, the cost.
#[tactic(auto, using(crate::proofs::KindLaws::none_past))]
fn in_refund(i: usize) -> Option<Kind>
    ensures { result ≡ first_kind (drop i refund_kinds) }
{
    match i {
        1 => Some(Kind::Number(MOST_32)),
        _ => in_remove(i),
    }
}

// The key.
#[tactic(auto, using(crate::proofs::KindLaws::none_past))]
fn in_remove(i: usize) -> Option<Kind>
    ensures { result ≡ first_kind (drop i remove_kinds) }
{
    match i {
        0 => Some(Kind::Number(u64::MAX)),
        _ => None,
    }
}

// The amount, the period, the burst, the initial tokens, the keys, the shards, the idle time, the rule when full.
#[tactic(auto, using(crate::proofs::KindLaws::none_past))]
fn in_set_up(i: usize) -> Option<Kind>
    ensures { result ≡ first_kind (drop i set_up_kinds) }
{
    match i {
        0 => Some(Kind::Number(MOST_32)),
        1 => Some(Kind::Number(u64::MAX)),
        2 | 3 => Some(Kind::Number(MOST_32)),
        4 | 5 => Some(Kind::Number(u64::MAX)),
        6 => Some(Kind::Idle),
        7 => Some(Kind::Number(1)),
        _ => None,
    }
}

// Whether a field is of a kind. No field is of none.
pub(crate) fn accepts(kind: Option<Kind>, field: &[u8]) -> bool
    ensures { result ≡ Reasons.accepts kind field.now }
{
    match kind {
        None => false,
        Some(Kind::Number(most)) => is_number(field, most),
        Some(Kind::Idle) => is_dash(field) || is_number(field, u64::MAX),
    }
}

// Whether a field is the one byte `-`.
#[tactic(auto, unfolding(desk_lines::specs::Lines::is_dash))]
fn is_dash(field: &[u8]) -> bool
    ensures { result ≡ Lines.is_dash field.now }
{
    field.len() == 1 && field[0] == b'-'
}

// Whether a field is a number of at most `most`.
fn is_number(field: &[u8], most: u64) -> bool
    ensures { result ≡ is_number most field.now }
{
    decimal::number(field, most).is_some()
}
