//! The fields of a text in Forsyth-Edwards Notation.

// A reader of a field or of several returns the offset of the first wrong byte if it refuses them.

ghost use Rattle.std.specs.Prelude.{◌≡◌, ◌≢◌, ◌↔◌, ◌+◌, ◌*◌, ◌-◌, ◌<◌, ◌≤◌, ◌⊎◌, ◌∷◌, ◌++◌, ◌^◌, ℕ, IsTrue, List, [], MatchOption, MatchResult, decimal, length, take};
ghost use Rattle.arrayvec.specs.ArrayString.{array_string_len};
ghost use Rattle.dgt_values.specs.Board.{pieces_of, square_name, square_number};
ghost use Rattle.dgt_chess.specs.Fen.{AreCounters, Counters, FromPassed, FromRights, FromTurn, HasNoSpace, IsAnyFen, IsDecimal, IsFen, IsFirstWrong, IsFromPassed, IsFromRights, IsFromTurn, IsNumber, IsPassed, IsRights, IsTurn, passed_text, right_text, rights_text, turn_text};

use crate::pieces::Colour;
use crate::possible::Rights;
use arrayvec::ArrayString;
use dgt_values::{Position, Square};

// What stands before the first space, and after it if there is one.
fn split(text: &str) -> (&str, Option<&str>)
    ensures parts { MatchOption result.1
        (text.now ≡ result.0.now)
        (λ rest. text.now ≡ result.0.now ++ 32 ∷ rest.now) }
    ensures no_space { HasNoSpace result.0.now }
{
    match text.split_once(' ') {
        Some((field, rest)) => (field, Some(rest)),
        None => (text, None),
    }
}

// The number of the digits so far and one more. `None` for another byte, after a leading zero, and
// for a number above 65,535.
fn with_digit(number: u16, digits: usize, byte: u8) -> Option<u16>
    ensures { MatchOption result
        ((byte < 48) ⊎ (57 < byte) ⊎ ((0 < digits) × (number ≡ 0))
        ⊎ (2 ^ 16 ≤ 10 * number + (byte - 48)))
        (λ next. (48 ≤ byte) × (byte ≤ 57) × (0 < digits → 0 < number)
        × (next ≡ 10 * number + (byte - 48)) × (next < 2 ^ 16)) }
{
    if !byte.is_ascii_digit() {
        return None;
    }
    if digits > 0 && number == 0 {
        return None;
    }
    let next = 10 * u32::from(number) + u32::from(byte - b'0');
    if next > 65_535 {
        return None;
    }
    Some(next as u16)
}

fn parse_number(text: &str) -> Result<u16, usize>
    ensures { MatchResult result
        (λ number. IsDecimal number text.now)
        (IsFirstWrong IsNumber text.now) }
{
    let bytes = text.as_bytes();
    let mut number = 0;
    for (at, &byte) in bytes.iter().enumerate() {
        match with_digit(number, at, byte) {
            Some(next) => number = next,
            None => return Err(at),
        }
    }
    if bytes.is_empty() { Err(0) } else { Ok(number) }
}

// The side whose letter this is.
fn turn_of(byte: u8) -> Option<Colour>
    ensures { MatchOption result
        ((turn : Colour) → turn_text turn ≢ byte ∷ [])
        (λ turn. turn_text turn ≡ byte ∷ []) }
{
    match byte {
        b'w' => Some(Colour::White),
        b'b' => Some(Colour::Black),
        _ => None,
    }
}

#[tactic(auto, using(crate::proofs::FieldBytes::turns))]
fn parse_turn(text: &str) -> Result<Colour, usize>
    ensures { MatchResult result
        (λ turn. text.now ≡ turn_text turn)
        (IsFirstWrong IsTurn text.now) }
{
    let bytes = text.as_bytes();
    if bytes.is_empty() {
        return Err(0);
    }
    let Some(turn) = turn_of(bytes[0]) else {
        return Err(0);
    };
    if bytes.len() == 1 { Ok(turn) } else { Err(1) }
}

// The square of a file's letter and a row's digit.
fn square_of(file: u8, row: u8) -> Square
    requires file { (97 ≤ file) × (file ≤ 104) }
    requires row { (49 ≤ row) × (row ≤ 56) }
    ensures { square_name (square_number result) ≡ file ∷ row ∷ [] }
{
    Square::from_small(8 * (b'8' - row) + (file - b'a'))
}

fn is_file(byte: u8) -> bool
    ensures { IsTrue result ↔ ((97 ≤ byte) × (byte ≤ 104)) }
{
    byte >= b'a' && byte <= b'h'
}

fn is_row(byte: u8) -> bool
    ensures { IsTrue result ↔ ((49 ≤ byte) × (byte ≤ 56)) }
{
    byte >= b'1' && byte <= b'8'
}

#[tactic(auto, using(crate::proofs::FieldBytes::passes))]
fn parse_passed(text: &str) -> Result<Option<Square>, usize>
    ensures { MatchResult result
        (λ passed. text.now ≡ passed_text passed)
        (IsFirstWrong IsPassed text.now) }
{
    let bytes = text.as_bytes();
    if bytes.is_empty() {
        return Err(0);
    }
    if bytes[0] == b'-' {
        return if bytes.len() == 1 { Ok(None) } else { Err(1) };
    }
    if !is_file(bytes[0]) {
        return Err(0);
    }
    if bytes.len() == 1 {
        return Err(1);
    }
    if !is_row(bytes[1]) {
        return Err(1);
    }
    let square = square_of(bytes[0], bytes[1]);
    if bytes.len() == 2 {
        Ok(Some(square))
    } else {
        Err(2)
    }
}

fn push_right(text: &mut ArrayString<4>, remains: bool, letter: char)
    requires room { array_string_len text.old < 4 }
    requires ascii { letter < 128 }
    ensures text { text.new.bytes ≡ text.old.bytes ++ right_text remains letter }
    ensures len { array_string_len text.new ≤ array_string_len text.old + 1 }
{
    if remains {
        text.push(letter);
    }
}

// How many first bytes two texts have in common.
fn common(a: &[u8], b: &[u8]) -> usize
    ensures first { result ≤ length a.now }
    ensures second { result ≤ length b.now }
    ensures same { take result a.now ≡ take result b.now }
    ensures most { (n : ℕ) → result < n → take n a.now ≡ take n b.now → a.now ≡ b.now }
{
    let len = a.len().min(b.len());
    for at in 0..len {
        if a[at] != b[at] {
            return at;
        }
    }
    len
}

impl Rights {
    ghost use Rattle.dgt_chess.specs.Fen.{rights_of};

    // The four rights of a number below 16.
    fn of_code(code: u8) -> Self
        ensures { result ≡ rights_of code }
    {
        Rights {
            white_short: code % 2 == 1,
            white_long: code / 2 % 2 == 1,
            black_short: code / 4 % 2 == 1,
            black_long: code / 8 % 2 == 1,
        }
    }

    // The letters of the rights that remain, or a hyphen.
    #[tactic(auto, using(crate::proofs::FieldBytes::hyphens))]
    pub(crate) fn text(self) -> ArrayString<4>
        ensures { result.bytes ≡ rights_text self }
    {
        let mut text = ArrayString::new();
        push_right(&mut text, self.white_short, 'K');
        push_right(&mut text, self.white_long, 'Q');
        push_right(&mut text, self.black_short, 'k');
        push_right(&mut text, self.black_long, 'q');
        if text.is_empty() {
            text.push('-');
        }
        text
    }
}

fn is_equal(a: &str, b: &str) -> bool
    ensures { IsTrue result ↔ (a.now ≡ b.now) }
{
    a == b
}

fn larger(a: usize, b: usize) -> usize
    ensures first { a ≤ result }
    ensures second { b ≤ result }
    ensures one { (result ≡ a) ⊎ (result ≡ b) }
{
    if a < b { b } else { a }
}

// The rights whose text this is, or how many bytes it has in common with the text of some rights.
fn parse_rights(text: &str) -> Result<Rights, usize>
    ensures { MatchResult result
        (λ rights. text.now ≡ rights_text rights)
        (IsFirstWrong IsRights text.now) }
{
    let mut most = 0;
    for code in 0..16 {
        let rights = Rights::of_code(code);
        let right = rights.text();
        if is_equal(right.as_str(), text) {
            return Ok(rights);
        }
        let same = common(right.as_str().as_bytes(), text.as_bytes());
        most = larger(most, same);
    }
    Err(most)
}

// The offset in the text of an offset after its first space.
fn later(text: &str, field: &str, rest: &str, at: usize) -> usize
    requires parts { text.now ≡ field.now ++ 32 ∷ rest.now }
    requires within { at ≤ length rest.now }
    ensures { result ≡ length field.now + 1 + at }
{
    text.len() - rest.len() + at
}

type Counters = (u16, u16);

type FromPassed = (Option<Square>, Counters);

type FromRights = (Rights, FromPassed);

type FromTurn = (Colour, FromRights);

fn parse_counters(text: &str) -> Result<Counters, usize>
    ensures { MatchResult result
        (λ read. Counters read.0 read.1 text.now)
        (IsFirstWrong AreCounters text.now) }
{
    let (field, rest) = split(text);
    let half_moves = match parse_number(field) {
        Ok(half_moves) => half_moves,
        Err(at) => return Err(at),
    };
    let Some(rest) = rest else {
        return Err(text.len());
    };
    match parse_number(rest) {
        Ok(number) => Ok((half_moves, number)),
        Err(at) => Err(later(text, field, rest, at)),
    }
}

fn parse_from_passed(text: &str) -> Result<FromPassed, usize>
    ensures { MatchResult result
        (λ read. FromPassed read.0 read.1.0 read.1.1 text.now)
        (IsFirstWrong IsFromPassed text.now) }
{
    let (field, rest) = split(text);
    let passed = match parse_passed(field) {
        Ok(passed) => passed,
        Err(at) => return Err(at),
    };
    let Some(rest) = rest else {
        return Err(text.len());
    };
    match parse_counters(rest) {
        Ok(counters) => Ok((passed, counters)),
        Err(at) => Err(later(text, field, rest, at)),
    }
}

fn parse_from_rights(text: &str) -> Result<FromRights, usize>
    ensures { MatchResult result
        (λ read. FromRights read.0 read.1.0 read.1.1.0 read.1.1.1 text.now)
        (IsFirstWrong IsFromRights text.now) }
{
    let (field, rest) = split(text);
    let rights = match parse_rights(field) {
        Ok(rights) => rights,
        Err(at) => return Err(at),
    };
    let Some(rest) = rest else {
        return Err(text.len());
    };
    match parse_from_passed(rest) {
        Ok(from_passed) => Ok((rights, from_passed)),
        Err(at) => Err(later(text, field, rest, at)),
    }
}

fn parse_from_turn(text: &str) -> Result<FromTurn, usize>
    ensures { MatchResult result
        (λ read. FromTurn read.0 read.1.0 read.1.1.0 read.1.1.1.0 read.1.1.1.1 text.now)
        (IsFirstWrong IsFromTurn text.now) }
{
    let (field, rest) = split(text);
    let turn = match parse_turn(field) {
        Ok(turn) => turn,
        Err(at) => return Err(at),
    };
    let Some(rest) = rest else {
        return Err(text.len());
    };
    match parse_from_rights(rest) {
        Ok(from_rights) => Ok((turn, from_rights)),
        Err(at) => Err(later(text, field, rest, at)),
    }
}

pub(crate) fn parse_parts(text: &str) -> Result<(Position, FromTurn), usize>
    ensures { MatchResult result
        (λ read. IsFen text.now (pieces_of read.0) read.1.0 read.1.1.0 read.1.1.1.0
        read.1.1.1.1.0 read.1.1.1.1.1)
        (IsFirstWrong IsAnyFen text.now) }
{
    let (field, rest) = split(text);
    let position = match Position::parse_placement(field) {
        Ok(position) => position,
        Err(bad) => return Err(bad.at),
    };
    let Some(rest) = rest else {
        return Err(text.len());
    };
    match parse_from_turn(rest) {
        Ok(from_turn) => Ok((position, from_turn)),
        Err(at) => Err(later(text, field, rest, at)),
    }
}

// The fields as they are written.

pub(crate) fn turn_word(turn: Colour) -> &'static str
    ensures { result.now ≡ turn_text turn }
{
    match turn {
        Colour::White => "w",
        Colour::Black => "b",
    }
}

pub(crate) fn passed_word(passed: Option<Square>) -> ArrayString<2>
    ensures { result.bytes ≡ passed_text passed }
{
    let mut text = ArrayString::new();
    match passed {
        Some(square) => {
            let name = square.name();
            text.push(name[0] as char);
            text.push(name[1] as char);
        }
        None => text.push('-'),
    }
    text
}

fn push_digit(text: &mut ArrayString<5>, digit: u16)
    requires small { digit < 10 }
    requires room { array_string_len text.old < 5 }
    ensures text { text.new.bytes ≡ text.old.bytes ++ (48 + digit) ∷ [] }
    ensures len { array_string_len text.new ≡ array_string_len text.old + 1 }
{
    text.push((b'0' + digit as u8) as char);
}

fn push_digits(text: &mut ArrayString<5>, number: u16)
    requires { array_string_len text.old + length (decimal number) ≤ 5 }
    ensures text { text.new.bytes ≡ text.old.bytes ++ decimal number }
    ensures len { array_string_len text.new ≡ array_string_len text.old + length (decimal number) }
{
    if number < 10 {
        push_digit(text, number);
        return;
    }
    push_digits(text, number / 10);
    push_digit(text, number % 10);
}

#[tactic(auto, using(crate::proofs::Decimals::five_digits))]
pub(crate) fn number_word(number: u16) -> ArrayString<5>
    ensures { result.bytes ≡ decimal number }
{
    let mut text = ArrayString::new();
    push_digits(&mut text, number);
    text
}

// Adds a space and a field.
pub(crate) fn push_field(text: &mut ArrayString<93>, field: &str)
    requires { array_string_len text.old + 1 + length field.now ≤ 93 }
    ensures text { text.new.bytes ≡ text.old.bytes ++ 32 ∷ field.now }
    ensures len { array_string_len text.new ≡ array_string_len text.old + 1 + length field.now }
{
    text.push(' ');
    text.push_str(field);
}
