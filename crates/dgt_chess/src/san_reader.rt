//! Reading Standard Algebraic Notation.

ghost use Rattle.std.specs.Prelude.{◌≡◌, ◌≢◌, ◌↔◌, ◌<◌, ◌≤◌, ◌+◌, ◌++◌, ℕ, Bool, true, false, IsTrue, MatchOption, MatchResult, Option, length};
ghost use Rattle.dgt_values.specs.Board.{pieces_of, square_number};
ghost use Rattle.dgt_chess.specs.Attacks.{piece_at, piece_of};
ghost use Rattle.dgt_chess.specs.San.{IsRefusal, IsSanText, castling_letter, castling_text, move_text, ordinary_text, sign_text};
ghost use Rattle.dgt_chess.specs.Scanning.{castling_goal, goal_of, is_file, is_rank, man_of, read, scan, start, step, style_of, with_man};

use crate::pieces::{Colour, Man, is_on};
use crate::san::{Sign, Style, castling_text, move_text, ordinary_text};
use crate::state::{Move, State};
use dgt_values::Square;
use thiserror::Error;

// What the bytes of a text say, from the left.
#[derive(Clone, Copy)]
pub(crate) struct Scan {
    man: Man,
    has_file: bool,
    by_file: bool,
    from_file: u8,
    file: u8,
    has_rank: bool,
    by_rank: bool,
    from_row: u8,
    row: u8,
    takes: bool,
    equals: bool,
    promotion: Option<Man>,
    castles: bool,
    zero: bool,
    has_dash: bool,
    is_long: bool,
    sign: Sign,
}

fn start() -> Scan
    ensures { result ≡ start }
{
    Scan {
        man: Man::Pawn,
        has_file: false,
        by_file: false,
        from_file: 0,
        file: 0,
        has_rank: false,
        by_rank: false,
        from_row: 0,
        row: 0,
        takes: false,
        equals: false,
        promotion: None,
        castles: false,
        zero: false,
        has_dash: false,
        is_long: false,
        sign: Sign::Neither,
    }
}

fn is_file(byte: u8) -> bool
    ensures { result ≡ is_file byte }
{
    b'a' <= byte && byte <= b'h'
}

fn is_rank(byte: u8) -> bool
    ensures { result ≡ is_rank byte }
{
    b'1' <= byte && byte <= b'8'
}

fn man_of(byte: u8) -> Option<Man>
    ensures { result ≡ man_of byte }
{
    if byte == b'N' {
        return Some(Man::Knight);
    }
    if byte == b'B' {
        return Some(Man::Bishop);
    }
    if byte == b'R' {
        return Some(Man::Rook);
    }
    if byte == b'Q' {
        return Some(Man::Queen);
    }
    if byte == b'K' {
        return Some(Man::King);
    }
    None
}

// The letter before the goal is the man's, and the one after it that of a promotion.
fn with_man(scan: Scan, man: Man) -> Scan
    ensures { result ≡ with_man scan man }
{
    if scan.has_rank {
        return Scan {
            promotion: Some(man),
            ..scan
        };
    }
    Scan { man, ..scan }
}

fn step(scan: Scan, byte: u8) -> Scan
    ensures { result ≡ step scan byte }
{
    if is_file(byte) {
        return Scan {
            by_file: scan.has_file,
            has_file: true,
            from_file: scan.file,
            file: byte - b'a',
            ..scan
        };
    }
    if is_rank(byte) {
        return Scan {
            by_rank: scan.has_rank,
            has_rank: true,
            from_row: scan.row,
            row: b'8' - byte,
            ..scan
        };
    }
    if let Some(man) = man_of(byte) {
        return with_man(scan, man);
    }
    if byte == b'x' {
        return Scan {
            takes: true,
            ..scan
        };
    }
    if byte == b'=' {
        return Scan {
            equals: true,
            ..scan
        };
    }
    if byte == b'O' {
        return Scan {
            castles: true,
            ..scan
        };
    }
    if byte == b'0' {
        return Scan {
            castles: true,
            zero: true,
            ..scan
        };
    }
    if byte == b'-' {
        return Scan {
            has_dash: true,
            is_long: scan.has_dash,
            ..scan
        };
    }
    if byte == b'+' {
        return Scan {
            sign: Sign::Check,
            ..scan
        };
    }
    if byte == b'#' {
        return Scan {
            sign: Sign::Mate,
            ..scan
        };
    }
    scan
}

fn scan_text(text: &[u8]) -> Scan
    ensures { result ≡ scan text.now }
{
    let mut scan = start();
    for &byte in text {
        scan = step(scan, byte);
    }
    scan
}

// What a text says of a move, if it is a move's text. The file and the row of the first square are
// those that the text shows.
#[derive(Clone, Copy)]
pub(crate) struct Reading {
    pub(crate) castles: bool,
    pub(crate) man: Man,
    pub(crate) style: Style,
    pub(crate) takes: bool,
    pub(crate) a: u8,
    pub(crate) b: u8,
    pub(crate) promotion: Option<Man>,
}

fn castling_goal(turn: Colour, is_long: bool) -> u8
    ensures value { result ≡ castling_goal turn is_long }
    ensures small { result < 64 }
{
    match turn {
        Colour::White => { if is_long { 58 } else { 62 } }
        Colour::Black => { if is_long { 2 } else { 6 } }
    }
}

fn goal(turn: Colour, scan: Scan) -> u8
    ensures value { result ≡ goal_of turn scan }
    ensures small { result < 64 }
{
    if scan.castles {
        castling_goal(turn, scan.is_long)
    } else {
        8 * (scan.row % 8) + scan.file % 8
    }
}

fn style_of(scan: Scan) -> Style
    ensures { result ≡ style_of scan }
{
    Style {
        by_file: scan.by_file,
        by_rank: scan.by_rank,
        equals: scan.equals,
        zero: scan.zero,
        sign: scan.sign,
    }
}

#[tactic(auto, unfolding(crate::specs::Scanning::read))]
pub(crate) fn read(turn: Colour, text: &[u8]) -> Reading
    ensures value { result ≡ read turn text.now }
    ensures small { result.b < 64 }
    ensures origin { result.a < 64 }
{
    let scan = scan_text(text);
    Reading {
        castles: scan.castles,
        man: if scan.castles { Man::King } else { scan.man },
        style: style_of(scan),
        takes: scan.takes,
        a: 8 * (scan.from_row % 8) + scan.from_file % 8,
        b: goal(turn, scan),
        promotion: scan.promotion,
    }
}

/// Why a text is not read as a move.
#[derive(Clone, Copy, Debug, PartialEq, Eq, Error)]
pub enum BadSan {
    /// The text is no move's in any state, in any style.
    #[error("not a move in Standard Algebraic Notation")]
    NotSan,
    /// The text is a move's, but of no legal one.
    #[error("no legal move has this text")]
    NoMove,
    /// The text fits several legal moves.
    #[error("several legal moves fit the text")]
    Ambiguous,
}

fn is_same(first: &[u8], second: &[u8]) -> bool
    ensures { IsTrue result ↔ (first.now ≡ second.now) }
{
    first == second
}

fn is_promotion(promotion: Option<Man>) -> bool
    ensures { IsTrue result
        ↔ ((promotion ≢ Some Man.Pawn) × (promotion ≢ Some Man.King)) }
{
    match promotion {
        Some(Man::Pawn) => false,
        Some(Man::King) => false,
        _ => true,
    }
}

// Whether the text is some move's, in any state.
#[tactic(auto, unfolding(crate::specs::Scanning::read))]
fn is_san_text(turn: Colour, text: &[u8]) -> bool
    ensures { IsTrue result ↔ IsSanText text.now }
{
    let r = read(turn, text);
    if r.castles {
        return is_same(castling_text(r.style, r.b).as_bytes(), text);
    }
    if !is_promotion(r.promotion) {
        return false;
    }
    let written = ordinary_text(r.style, r.man, r.takes, r.a, r.b, r.promotion);
    is_same(written.as_bytes(), text)
}

fn refusal(turn: Colour, text: &[u8]) -> BadSan
    ensures { IsRefusal text.now result }
{
    if is_san_text(turn, text) {
        BadSan::NoMove
    } else {
        BadSan::NotSan
    }
}

impl State {
    ghost use Rattle.dgt_chess.specs.San.{Fits, FitsFrom, FitsOnly, FitsSeveral, IsSan, ParsesSan};

    // Whether the text is that of a legal move from this square.
    fn is_written(&self, r: Reading, text: &[u8], a: u8) -> bool
        requires a { a < 64 }
        requires b { r.b < 64 }
        requires read { r ≡ read self.now.turn text.now }
        ensures { IsTrue result ↔ IsSan self.now a r.b r.promotion text.now }
    {
        if !is_on(self.position().pieces(), a, self.turn(), r.man) {
            return false;
        }
        match self.san_at(a, r.b, r.promotion) {
            Some(written) => is_same(written.as_bytes(), text),
            None => false,
        }
    }

    /// The legal move whose text is this one, exactly as [`State::san`] writes it. Returns
    /// `BadSan::NotSan` for a text that is no move's in any state and style, and `BadSan::NoMove`
    /// for any other text.
    pub fn parse_san(&self, text: &str) -> Result<Move, BadSan>
        ensures { ParsesSan self.now text.now result }
    {
        let text = text.as_bytes();
        let r = read(self.turn(), text);
        for a in 0..64 {
            if self.is_written(r, text, a) {
                return Ok(Move {
                    from: Square::from_small(a),
                    to: Square::from_small(r.b),
                    promotion: r.promotion,
                });
            }
        }
        Err(refusal(self.turn(), text))
    }

    // Whether the text fits a legal move from this square.
    fn is_fitting(&self, r: Reading, text: &[u8], a: u8) -> bool
        requires a { a < 64 }
        requires b { r.b < 64 }
        requires read { r ≡ read self.now.turn text.now }
        ensures { IsTrue result ↔ Fits self.now a r.b r.promotion text.now }
    {
        let pieces = self.position().pieces();
        if !is_on(pieces, a, self.turn(), r.man) {
            return false;
        }
        let written = move_text(r.style, r.man, pieces, a, r.b, r.promotion);
        if !is_same(written.as_bytes(), text) {
            return false;
        }
        self.is_legal_by(r.man, a, r.b, r.promotion)
    }

    fn fitting_from(&self, r: Reading, text: &[u8]) -> Result<Option<u8>, BadSan>
        requires b { r.b < 64 }
        requires read { r ≡ read self.now.turn text.now }
        ensures { MatchResult result
            (λ found. FitsFrom self.now r.b r.promotion text.now 64 found)
            (λ e. (e ≡ BadSan.Ambiguous)
            × FitsSeveral self.now r.b r.promotion text.now) }
    {
        let mut found = None;
        for a in 0..64 {
            if self.is_fitting(r, text, a) {
                if let Some(_) = found {
                    return Err(BadSan::Ambiguous);
                }
                found = Some(a);
            }
        }
        Ok(found)
    }

    /// The only legal move that fits a text. A text fits a move if it is the move's text in any
    /// style:
    ///
    /// - The sign is `+`, `#` or none, whether or not the move gives check.
    /// - The file and the rank that the move leaves are each written or left out.
    /// - The `=` of a promotion may be missing.
    /// - Castling is written with the letter O or with zeros.
    ///
    /// Captures are written with `x`, and other moves without. Returns `BadSan::Ambiguous` if
    /// several legal moves fit, and otherwise the errors of [`State::parse_san`].
    pub fn parse_san_leniently(&self, text: &str) -> Result<Move, BadSan>
        ensures { FitsOnly self.now text.now result }
    {
        let text = text.as_bytes();
        let r = read(self.turn(), text);
        match self.fitting_from(r, text) {
            Ok(Some(a)) => Ok(Move {
                from: Square::from_small(a),
                to: Square::from_small(r.b),
                promotion: r.promotion,
            }),
            Ok(None) => Err(refusal(self.turn(), text)),
            Err(e) => Err(e),
        }
    }
}
