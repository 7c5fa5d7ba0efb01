//! Laws of what structs of C and calls say of chess.

ghost use Rattle.std.specs.Prelude.{◌≡◌, ◌∷◌, [], ℕ, List, Err, None, Ok, Some, map, replicate};
ghost use Rattle.dgt_values.specs.declared.squares.Square.{Square as AnySquare};
ghost use Rattle.dgt_values.specs.Board.{piece_code, square_number};
ghost use Rattle.dgt_chess.specs.declared.fen.BadFen.{BadFen};
ghost use Rattle.dgt_chess.specs.declared.fen.FenField.{FenField};
ghost use Rattle.dgt_chess.specs.declared.pieces.Colour.{Colour};
ghost use Rattle.dgt_chess.specs.declared.pieces.Man.{Man};
ghost use Rattle.dgt_chess.specs.declared.possible.Impossible.{Impossible};
ghost use Rattle.dgt_chess.specs.declared.san_reader.BadSan.{BadSan};
ghost use Rattle.dgt_chess.specs.declared.state.Move.{Move};
ghost use Rattle.dgt_chess.specs.declared.state.State.{State};
ghost use Rattle.dgt_chess.specs.Rules.{board};
ghost use Rattle.dgt_chess.specs.San.{FitsOnly, ParsesSan};
ghost use Rattle.dgt_c.specs.Chess.{SaysMove, SaysState, colour_number, passed_number, promotion_code, reason_status};
ghost use Rattle.dgt_c.specs.ChessOnce.{GoalsAreMoves, LegalAreLegal, MembersAreListed, OneFenPut, OneFenRead, OneKind, OneLead, OneMove, OneMoveStruct, OnePlay, OneSanPut, OneState, OneStateStruct, OneStatus, PlayedAreLegal, RefusedAreNone, StatusesAre};
ghost use Rattle.dgt_c.specs.ChessTexts.{ReadsSan, fen_reported, field_number, san_status};
ghost use Rattle.dgt_c.specs.Hearing.{flag};
ghost use Rattle.dgt_c.specs.declared.header.DgtChessMove.{DgtChessMove};
ghost use Rattle.dgt_c.specs.declared.header.DgtChessState.{DgtChessState};

/// A struct describes at most one state or move, and one struct describes it. So two states are the
/// same exactly if no byte of their structs differs.
pub fn one_struct()
    ensures state { OneState }
    ensures state_struct { OneStateStruct }
    ensures kind { OneKind }
    ensures move_in { OneMove }
    ensures move_struct { OneMoveStruct }
{
    dgt_values::laws::one_piece_a_code();
}

/// A struct has one status, each number of a status has one meaning, and the values of members are
/// listed.
pub fn one_status()
    ensures one { OneStatus }
    ensures numbers { StatusesAre }
    ensures refused { RefusedAreNone }
    ensures listed { MembersAreListed }
{
    dgt_chess::laws::refused_are_impossible();
    dgt_chess::laws::states_are_possible();
    dgt_values::laws::one_piece_a_code();
}

/// The members by which a struct describes a state or a move.
pub fn said_members()
    ensures pieces { (said : DgtChessState) (state : State) → SaysState said state
        → said.pieces ≡ map piece_code (board state) }
    ensures counts { (said : DgtChessState) (state : State) → SaysState said state
        → (said.half_moves ≡ state.half_moves) × (said.number ≡ state.number) }
    ensures turn { (said : DgtChessState) (state : State) → SaysState said state
        → said.turn ≡ colour_number state.turn }
    ensures turns { (colour_number Colour.White ≡ 0) × (colour_number Colour.Black ≡ 1) }
    ensures rights { (said : DgtChessState) (state : State) → SaysState said state
        → said.rights ≡ flag state.rights.white_short ∷ flag state.rights.white_long
        ∷ flag state.rights.black_short ∷ flag state.rights.black_long ∷ [] }
    ensures passed { (said : DgtChessState) (state : State) → SaysState said state
        → said.passed ≡ passed_number state.passed }
    ensures squares { (passed_number None ≡ 255)
        × ((square : AnySquare) → passed_number (Some square) ≡ square_number square) }
    ensures reserved { (said : DgtChessState) (state : State) → SaysState said state
        → said.reserved ≡ replicate 6 0 }
    ensures ends { (said : DgtChessMove) (one : Move) → SaysMove said one
        → (said.from ≡ square_number one.from) × (said.to ≡ square_number one.to)
        × (said.promotion ≡ promotion_code one.promotion) × (said.reserved ≡ 0) }
    ensures promotions { (promotion_code None ≡ 0) × (promotion_code (Some Man.Rook) ≡ 2)
        × (promotion_code (Some Man.Knight) ≡ 3) × (promotion_code (Some Man.Bishop) ≡ 4)
        × (promotion_code (Some Man.Queen) ≡ 6) }
{}

/// A legal move leads to one struct, and one legal move leads to given pieces.
pub fn one_play()
    ensures play { OnePlay }
    ensures played { PlayedAreLegal }
    ensures legal { LegalAreLegal }
    ensures goals { GoalsAreMoves }
    ensures lead { OneLead }
{
    dgt_chess::laws::one_state_after();
    dgt_chess::laws::one_move_a_picture();
    dgt_values::laws::one_piece_a_code();
}

/// A text has one reading, and a state or a legal move has one text.
pub fn one_reading()
    ensures fen { OneFenRead }
    ensures written { OneFenPut }
    ensures san { OneSanPut }
    ensures strict { (said : DgtChessState) (text : List ℕ) (old first second : DgtChessMove)
        (one other : ℕ) → ReadsSan ParsesSan said text old first one
        → ReadsSan ParsesSan said text old second other → (first ≡ second) × (one ≡ other) }
    ensures lenient { (said : DgtChessState) (text : List ℕ) (old first second : DgtChessMove)
        (one other : ℕ) → ReadsSan FitsOnly said text old first one
        → ReadsSan FitsOnly said text old second other → (first ≡ second) × (one ≡ other) }
{
    dgt_chess::laws::one_first_wrong_byte();
    dgt_chess::laws::one_lenient_reading();
    dgt_chess::laws::one_move_a_text();
    dgt_chess::laws::one_text_a_move();
    dgt_chess::laws::refused_are_impossible();
    dgt_chess::laws::states_are_possible();
    dgt_values::laws::one_piece_a_code();
    dgt_values::laws::one_position_a_placement();
}

/// The numbers that report why a text isn't read.
pub fn reading_faults()
    ensures fields { (field_number FenField.Placement ≡ 0) × (field_number FenField.Turn ≡ 1)
        × (field_number FenField.Rights ≡ 2) × (field_number FenField.Passed ≡ 3)
        × (field_number FenField.HalfMoves ≡ 4) × (field_number FenField.Number ≡ 5) }
    ensures done { (state : State) → fen_reported (Ok state)
        ≡ record { status = 0; field = 0; at = 0 } }
    ensures text { (field : FenField) (at : ℕ) → fen_reported (Err (BadFen.Text field at))
        ≡ record { status = 9; field = field_number field; at = at } }
    ensures reason { (why : Impossible) → fen_reported (Err (BadFen.Impossible why))
        ≡ record { status = reason_status why; field = 0; at = 0 } }
    ensures reasons { (reason_status Impossible.Kings ≡ 1) × (reason_status Impossible.Extra ≡ 2)
        × (reason_status Impossible.Pawn ≡ 3) × (reason_status Impossible.Check ≡ 4)
        × (reason_status Impossible.Rights ≡ 5) × (reason_status Impossible.Passed ≡ 6)
        × (reason_status Impossible.Number ≡ 7) }
    ensures moves { ((one : Move) → san_status (Ok one) ≡ 0) × (san_status (Err BadSan.NotSan) ≡ 9)
        × (san_status (Err BadSan.NoMove) ≡ 10) × (san_status (Err BadSan.Ambiguous) ≡ 11) }
{}
