//! Standard Algebraic Notation.

ghost use Rattle.std.specs.Prelude.{◌≡◌, ◌≢◌, ◌↔◌, ◌<◌, ◌≤◌, ◌+◌, ◌++◌, ℕ, Bool, true, false, IsTrue, MatchOption, MatchResult, Option, length, if◌then◌else◌};
ghost use Rattle.arrayvec.specs.ArrayString.{array_string_len};
ghost use Rattle.dgt_values.specs.Board.{pieces_of, square_number, square_name};
ghost use Rattle.dgt_chess.specs.Attacks.{IsInCheck, file, piece_at, row};
ghost use Rattle.dgt_chess.specs.San.{captures, castling_letter, castling_text, file_letter, is_castling, man_letter, move_text, ordinary_text, promotion_text, rank_digit, shown, sign_text};

use crate::pieces::{Man, is_free, is_on};
use crate::state::{Move, NotLegal, State};
use arrayvec::ArrayString;
use dgt_values::Piece;

fn push_man(text: &mut ArrayString<9>, man: Man)
    requires { array_string_len text.old < 9 }
    ensures text { text.new.bytes ≡ text.old.bytes ++ man_letter man }
    ensures len { array_string_len text.new ≤ array_string_len text.old + 1 }
{
    match man {
        Man::Pawn => {}
        Man::Knight => text.push('N'),
        Man::Bishop => text.push('B'),
        Man::Rook => text.push('R'),
        Man::Queen => text.push('Q'),
        Man::King => text.push('K'),
    }
}

// Appends the byte if it is shown.
fn push_shown(text: &mut ArrayString<9>, is_shown: bool, byte: u8)
    requires room { array_string_len text.old < 9 }
    requires ascii { byte < 128 }
    ensures text { text.new.bytes ≡ text.old.bytes ++ shown is_shown byte }
    ensures len { array_string_len text.new ≤ array_string_len text.old + 1 }
{
    if is_shown {
        text.push(byte as char);
    }
}

fn file_letter(square: u8) -> u8
    ensures value { result ≡ file_letter square }
    ensures ascii { result < 128 }
{
    b'a' + square % 8
}

fn rank_digit(square: u8) -> u8
    requires { square < 64 }
    ensures value { result ≡ rank_digit square }
    ensures ascii { result < 128 }
{
    b'8' - square / 8
}

fn push_square(text: &mut ArrayString<9>, square: u8)
    requires room { array_string_len text.old < 8 }
    requires small { square < 64 }
    ensures text { text.new.bytes ≡ text.old.bytes ++ square_name square }
    ensures len { array_string_len text.new ≤ array_string_len text.old + 2 }
{
    text.push(file_letter(square) as char);
    text.push(rank_digit(square) as char);
}

fn push_promotion(text: &mut ArrayString<9>, equals: bool, promotion: Option<Man>)
    requires room { array_string_len text.old < 8 }
    ensures text { text.new.bytes ≡ text.old.bytes ++ promotion_text equals promotion }
    ensures len { array_string_len text.new ≤ array_string_len text.old + 2 }
{
    if let Some(new) = promotion {
        push_shown(text, equals, b'=');
        push_man(text, new);
    }
}

fn is_castling(man: Man, a: u8, b: u8) -> bool
    ensures { result ≡ is_castling man a b }
{
    match man {
        Man::King => (a % 8).abs_diff(b % 8) == 2,
        _ => false,
    }
}

fn captures(man: Man, pieces: &[Piece; 64], a: u8, b: u8) -> bool
    requires { b < 64 }
    ensures { result ≡ captures man pieces.now a b }
{
    match man {
        Man::Pawn => a % 8 != b % 8,
        _ => !is_free(pieces, b),
    }
}

fn push_castling(text: &mut ArrayString<9>, zero: bool, b: u8)
    requires { array_string_len text.old ≡ 0 }
    ensures text { text.new.bytes ≡ text.old.bytes ++ castling_text (castling_letter zero) b }
    ensures len { array_string_len text.new ≤ 8 }
{
    let is_short = b % 8 == 6;
    match zero {
        true => text.push_str(if is_short { "0-0" } else { "0-0-0" }),
        false => text.push_str(if is_short { "O-O" } else { "O-O-O" }),
    }
}

// What a sign says of the state after a move.
#[derive(Clone, Copy)]
pub(crate) enum Sign {
    Neither,
    Check,
    Mate,
}

// The choices in a move's text, and its sign.
#[derive(Clone, Copy)]
pub(crate) struct Style {
    pub(crate) by_file: bool,
    pub(crate) by_rank: bool,
    pub(crate) equals: bool,
    pub(crate) zero: bool,
    pub(crate) sign: Sign,
}

fn push_ordinary(
    text: &mut ArrayString<9>,
    style: Style,
    man: Man,
    takes: bool,
    a: u8,
    b: u8,
    promotion: Option<Man>,
)
    requires empty { array_string_len text.old ≡ 0 }
    requires a { a < 64 }
    requires b { b < 64 }
    ensures text { text.new.bytes ≡ text.old.bytes
        ++ ordinary_text style man takes a b promotion }
    ensures len { array_string_len text.new ≤ 8 }
{
    push_man(text, man);
    push_shown(text, style.by_file, file_letter(a));
    push_shown(text, style.by_rank, rank_digit(a));
    push_shown(text, takes, b'x');
    push_square(text, b);
    push_promotion(text, style.equals, promotion);
}

fn push_sign(text: &mut ArrayString<9>, sign: Sign)
    requires { array_string_len text.old ≤ 8 }
    ensures { text.new.bytes ≡ text.old.bytes ++ sign_text sign }
{
    match sign {
        Sign::Neither => {}
        Sign::Check => text.push('+'),
        Sign::Mate => text.push('#'),
    }
}

pub(crate) fn castling_text(style: Style, b: u8) -> ArrayString<9>
    ensures { result.bytes ≡ castling_text (castling_letter style.zero) b
        ++ sign_text style.sign }
{
    let mut text = ArrayString::new();
    push_castling(&mut text, style.zero, b);
    push_sign(&mut text, style.sign);
    text
}

pub(crate) fn ordinary_text(
    style: Style,
    man: Man,
    takes: bool,
    a: u8,
    b: u8,
    promotion: Option<Man>,
) -> ArrayString<9>
    requires a { a < 64 }
    requires b { b < 64 }
    ensures { result.bytes ≡ ordinary_text style man takes a b promotion
        ++ sign_text style.sign }
{
    let mut text = ArrayString::new();
    push_ordinary(&mut text, style, man, takes, a, b, promotion);
    push_sign(&mut text, style.sign);
    text
}

// A move's text in a style.
pub(crate) fn move_text(
    style: Style,
    man: Man,
    pieces: &[Piece; 64],
    a: u8,
    b: u8,
    promotion: Option<Man>,
) -> ArrayString<9>
    requires a { a < 64 }
    requires b { b < 64 }
    ensures { result.bytes ≡ move_text style man pieces.now a b promotion }
{
    if is_castling(man, a, b) {
        return castling_text(style, b);
    }
    let takes = captures(man, pieces, a, b);
    ordinary_text(style, man, takes, a, b, promotion)
}

impl State {
    ghost use Rattle.dgt_chess.specs.Rules.{CanMove, IsAfter, Legal, LegalBy, board};
    ghost use Rattle.dgt_chess.specs.San.{Distinguishes, HasRival, HasRivalOn, IsOrigin, IsExport, IsRival, IsSan, IsSign};

    // Whether another man of the kind, on this square, can go there too.
    fn is_rival(&self, man: Man, a: u8, b: u8, other: u8) -> bool
        requires b { b < 64 }
        requires other { other < 64 }
        ensures { IsTrue result ↔ IsRival man self.now a b other }
    {
        if other == a {
            return false;
        }
        if !is_on(self.position().pieces(), other, self.turn(), man) {
            return false;
        }
        self.is_legal_by(man, other, b, None)
    }

    #[tactic(auto, unfolding(crate::specs::San::HasRival))]
    fn has_rival(&self, man: Man, a: u8, b: u8) -> bool
        requires { b < 64 }
        ensures { IsTrue result ↔ HasRival man self.now a b }
    {
        for other in 0..64 {
            if self.is_rival(man, a, b, other) {
                return true;
            }
        }
        false
    }

    fn is_rival_on_file(&self, man: Man, a: u8, b: u8, other: u8) -> bool
        requires b { b < 64 }
        requires other { other < 64 }
        ensures { IsTrue result ↔ (IsRival man self.now a b other × (file other ≡ file a)) }
    {
        other % 8 == a % 8 && self.is_rival(man, a, b, other)
    }

    #[tactic(auto, unfolding(crate::specs::San::HasRivalOn))]
    fn has_rival_on_file(&self, man: Man, a: u8, b: u8) -> bool
        requires { b < 64 }
        ensures { IsTrue result ↔ HasRivalOn file man self.now a b }
    {
        for other in 0..64 {
            if self.is_rival_on_file(man, a, b, other) {
                return true;
            }
        }
        false
    }

    fn is_rival_on_row(&self, man: Man, a: u8, b: u8, other: u8) -> bool
        requires b { b < 64 }
        requires other { other < 64 }
        ensures { IsTrue result ↔ (IsRival man self.now a b other × (row other ≡ row a)) }
    {
        other / 8 == a / 8 && self.is_rival(man, a, b, other)
    }

    #[tactic(auto, unfolding(crate::specs::San::HasRivalOn))]
    fn has_rival_on_row(&self, man: Man, a: u8, b: u8) -> bool
        requires { b < 64 }
        ensures { IsTrue result ↔ HasRivalOn row man self.now a b }
    {
        for other in 0..64 {
            if self.is_rival_on_row(man, a, b, other) {
                return true;
            }
        }
        false
    }

    // Whether the file and the row that a move leaves are shown.
    fn origin(&self, man: Man, a: u8, b: u8) -> (bool, bool)
        requires { b < 64 }
        ensures { IsOrigin man self.now a b result.0 result.1 }
    {
        match man {
            Man::Pawn => (captures(man, self.position().pieces(), a, b), false),
            _ => self.man_origin(man, a, b),
        }
    }

    fn man_origin(&self, man: Man, a: u8, b: u8) -> (bool, bool)
        requires { b < 64 }
        ensures { Distinguishes (HasRival man self.now a b) (HasRivalOn file man self.now a b)
            (HasRivalOn row man self.now a b) result.0 result.1 }
    {
        if !self.has_rival(man, a, b) {
            return (false, false);
        }
        if !self.has_rival_on_file(man, a, b) {
            return (true, false);
        }
        if !self.has_rival_on_row(man, a, b) {
            return (false, true);
        }
        (true, true)
    }

    // The sign of the move that led to this state.
    fn sign(&self) -> Sign
        ensures { IsSign self.now result }
    {
        if !self.is_check() {
            return Sign::Neither;
        }
        if self.can_move() {
            return Sign::Check;
        }
        Sign::Mate
    }

    fn export_style(&self, man: Man, a: u8, b: u8, promotion: Option<Man>) -> Style
        requires a { a < 64 }
        requires b { b < 64 }
        requires legal { LegalBy man self.now a b promotion }
        ensures { IsExport man self.now a b promotion result }
    {
        let (by_file, by_rank) = self.origin(man, a, b);
        let sign = self.after(man, a, b, promotion).sign();
        Style {
            by_file,
            by_rank,
            equals: true,
            zero: false,
            sign,
        }
    }

    // The text of a move if it is legal.
    #[tactic(auto, unfolding(crate::specs::San::IsSan))]
    pub(crate) fn san_at(&self, a: u8, b: u8, promotion: Option<Man>) -> Option<ArrayString<9>>
        requires a { a < 64 }
        requires b { b < 64 }
        ensures { MatchOption result
            (¬ (Legal self.now a b promotion))
            (λ text. IsSan self.now a b promotion text.bytes) }
    {
        match self.mover(a, b, promotion) {
            Some(man) => {
                let style = self.export_style(man, a, b, promotion);
                let pieces = self.position().pieces();
                Some(move_text(style, man, pieces, a, b, promotion))
            }
            None => None,
        }
    }

    /// The text of a legal move in Standard Algebraic Notation, as PGN files contain it: at most
    /// six bytes and a sign. Returns `NotLegal` for any other move.
    pub fn san(&self, one: Move) -> Result<ArrayString<9>, NotLegal>
        ensures { let a = square_number one.from in
            let b = square_number one.to in
            MatchResult result
            (λ text. IsSan self.now a b one.promotion text.bytes)
            (λ _. ¬ (Legal self.now a b one.promotion)) }
    {
        match self.san_at(one.from.index(), one.to.index(), one.promotion) {
            Some(text) => Ok(text),
            None => Err(NotLegal),
        }
    }
}
