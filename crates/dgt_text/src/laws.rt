//! Facts about lines, scripts and conversations. Nothing here runs: the contract of each function
//! states a fact.

ghost use Rattle.std.specs.Prelude.{◌≡◌, ◌++◌, ℕ, List, codes};
ghost use Rattle.dgt_link.specs.Healing.{IsPromisedWorld};
ghost use Rattle.dgt_link.specs.Machine.{MachineState};
ghost use Rattle.dgt_link.specs.Promise.{IsPromised};
ghost use Rattle.dgt_link.specs.Stands.{StandsFor};
ghost use Rattle.dgt_link.specs.View.{IsQuietWorld, WorldView};
ghost use Rattle.dgt_values.specs.Placement.{placement_text};
ghost use Rattle.dgt_text.specs.Closing.{ClosingLinesAgree};
ghost use Rattle.dgt_text.specs.Conversation.{EachPrefixGoesOn, EachIsAnswered, EachIsAnsweredOnce};
ghost use Rattle.dgt_text.specs.Ends.{BrokenAnswersBegin, HasBoth, OneAnswer, OneBadLine, OneEnd, OneIsCutOff, OneIsTorn, OnlyWholeLines, TornTextsBegin};
ghost use Rattle.dgt_text.specs.Hosts.{LastClockIsTheHosts, PictureIsTheHosts};
ghost use Rattle.dgt_script.specs.ScriptLines.{IsCut};
ghost use Rattle.dgt_text.specs.Simulating.{Plays, ShowsHealed, ShowsPicture, faulty_rules, plain_rules};

pub use dgt_lines::laws::{
    clock_leaves_reports, doubts_leave_pictures, first_faults_are_reported, last_line_is_clock,
    last_line_is_picture, other_clocks_are_reported,
};
pub use dgt_script::laws::lines_have_one_meaning;

/// A board and the bytes that it hears have exactly one conversation. What the board sends and
/// hears during a prefix of the bytes is a prefix of that conversation.
pub fn one_conversation()
    ensures answered { EachIsAnswered }
    ensures once { EachIsAnsweredOnce }
    ensures goes_on { EachPrefixGoesOn }
{
    dgt_command::laws::one_division();
    dgt_command::laws::prefixes_divide_first();
    dgt_command::laws::parts_of_words();
    dgt_board::laws::bounded_sending();
}

/// The bytes that `serve` read determine what it wrote and the board that it left, if no write was
/// refused. After a refused write, a prefix was written, and only the last message is cut off.
pub fn one_answer()
    ensures once { OneAnswer }
    ensures begins { BrokenAnswersBegin }
    ensures one { OneIsCutOff }
{
    one_conversation();
}

/// A script divides into lines in one way. Its lines, played in a world, have one text of outcomes
/// and leave one world. The same holds for a script with faults.
pub fn scripts_have_one_play()
    ensures cut { (bytes : List ℕ) (lines others : List (List ℕ)) (rest other : List ℕ) →
        IsCut bytes lines rest → IsCut bytes others other → (lines ≡ others) × (rest ≡ other) }
    ensures played { (world last other : WorldView) (lines : List (List ℕ)) (text also : List ℕ) →
        Plays plain_rules world lines text last → Plays plain_rules world lines also other
        → (text ≡ also) × (last ≡ other) }
    ensures faulty { (world last other : WorldView) (lines : List (List ℕ)) (text also : List ℕ) →
        Plays faulty_rules world lines text last → Plays faulty_rules world lines also other
        → (text ≡ also) × (last ≡ other) }
{
    lines_have_one_meaning();
    dgt_link::laws::acts_have_one_outcome();
}

/// The bytes that `simulate` read determine what it wrote, the world that it left, and the number
/// and the offset of a bad line, if no write was refused. The same holds for `simulate_faults`.
pub fn scripts_have_one_end()
    ensures plain { OneEnd plain_rules }
    ensures faulty { OneEnd faulty_rules }
    ensures bad { OneBadLine plain_rules }
    ensures bad_faulty { OneBadLine faulty_rules }
{
    lines_have_one_meaning();
    dgt_link::laws::acts_have_one_outcome();
}

/// After a refused write, a prefix of the script's text was written. Before the end of the source
/// it is a prefix of the outcomes of whole lines. Only the last outcome is cut off.
pub fn torn_texts_begin()
    ensures plain { TornTextsBegin plain_rules }
    ensures faulty { TornTextsBegin faulty_rules }
    ensures whole_lines { OnlyWholeLines plain_rules }
    ensures whole_faulty_lines { OnlyWholeLines faulty_rules }
    ensures one { OneIsTorn plain_rules }
    ensures one_faulty { OneIsTorn faulty_rules }
{
    lines_have_one_meaning();
    dgt_link::laws::acts_have_one_outcome();
}

/// If the host's picture is the board's position, the first two closing lines have the same
/// placement.
pub fn closing_lines_agree()
    ensures { ClosingLinesAgree }
{}

/// The promise about pictures: if the world is quiet and promised its picture, the lines of board
/// and host at the end of the text have the same placement.
pub fn pictures_are_shown()
    ensures asked { (world : WorldView) (x : MachineState) (out : List ℕ) →
        ShowsPicture world out → StandsFor world x → IsPromised x → IsQuietWorld world
        → HasBoth (placement_text world.board.state.squares) out }
    ensures healed { (world : WorldView) (out : List ℕ) →
        ShowsHealed world out → IsPromisedWorld world → IsQuietWorld world
        → HasBoth (placement_text world.board.state.squares) out }
{}

/// A text with both lines contains them with one placement, one after the other.
pub fn what_has_both()
    ensures { (placement out : List ℕ) → HasBoth placement out →
        (before : List ℕ) × (rest : List ℕ) × (out ≡ before ++ codes "board " ++ placement
        ++ codes "\nhost " ++ placement ++ codes "\n" ++ rest) }
{}

/// The picture that is printed is that of a host that hears the same bytes. If that is unknown,
/// none is printed.
pub fn picture_is_the_hosts()
    ensures { PictureIsTheHosts }
{}

/// The last line of the clock has the text of the clock of a host that hears the same bytes. If
/// that is unknown, there is no such line.
pub fn last_clock_is_the_hosts()
    ensures { LastClockIsTheHosts }
{
    last_line_is_clock();
}
