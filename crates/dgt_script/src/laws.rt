//! Facts about the lines of a script. Nothing here runs: the contract of each function states a
//! fact.

ghost use Rattle.std.specs.Prelude.{◌≡◌, ◌≢◌, ◌↔◌, ◌∷◌, ℕ, List, length, nat_lt, if◌then◌else◌, option_map, Option, Some, None};
ghost use Rattle.std.specs.Borrow.{Bor};
ghost use Rattle.dgt_values.specs.Equality.{CloneIsSame, EqualIsSame};
ghost use Rattle.dgt_link.specs.Act.{ActContent};
ghost use Rattle.dgt_link.specs.Faults.{FaultyContent};
ghost use Rattle.dgt_script.specs.FaultyScript.{AsksFaulty, faulty_kinds, faulty_text, faulty_words};
ghost use Rattle.dgt_script.specs.Script.{AreOf, Asks, AsksFor, IsBadAt, IsSingleValued, kinds_after, plain_words};
ghost use Rattle.dgt_script.specs.ScriptLines.{IsShort};
ghost use Rattle.dgt_script.specs.ScriptWords.{verb_text};
ghost use Rattle.dgt_script.specs.declared.script_words.FaultyVerb.{FaultyVerb};
ghost use Rattle.dgt_script.specs.declared.script_words.Verb.{Verb};

use crate::script::LineFault;
use crate::script_lines::MAX_LINE;

/// The longest line that can be an act, in bytes.
pub fn limits()
    ensures line { MAX_LINE ≡ 519 }
{}

/// `==` is true exactly if both values are the same.
pub fn equal_is_same()
    ensures line_fault { EqualIsSame ⟦<LineFault as PartialEq>⟧.eq }
{}

/// A clone equals the original, and cloning never fails.
pub fn clone_is_same()
    ensures line_fault { CloneIsSame ⟦<LineFault as Clone>⟧ }
{}

/// A line is at most one act, or wrong at one offset.
///
/// The same holds for lines for a world with faults. There a line of a plain script is the same
/// act. A line of a plain script that is wrong after its first word is wrong at the same offset.
pub fn lines_have_one_meaning()
    ensures one_act { IsSingleValued (AsksFor plain_words) }
    ensures act_or_fault { (line : List ℕ) (act : ActContent) (at : ℕ) →
        AsksFor plain_words line act → ¬ (IsBadAt plain_words line at) }
    ensures one_place { IsSingleValued (IsBadAt plain_words) }
    ensures one_faulty_act { IsSingleValued (AsksFor faulty_words) }
    ensures faulty_act_or_fault { (line : List ℕ) (act : FaultyContent) (at : ℕ) →
        AsksFor faulty_words line act → ¬ (IsBadAt faulty_words line at) }
    ensures one_faulty_place { IsSingleValued (IsBadAt faulty_words) }
    ensures plain { (line : List ℕ) (act : ActContent) →
        AsksFor plain_words line act ↔ AsksFor faulty_words line (FaultyContent.Plain act) }
    ensures plain_place { (line : List ℕ) (at : ℕ) →
        IsBadAt plain_words line at → at ≢ 0 → IsBadAt faulty_words line at }
{
    dgt_message::laws::reading_is_exact();
    dgt_command::laws::encodings_give_commands();
}

/// A line is an act exactly if the words after the first one are of the kinds that may follow it.
pub fn kinds_are_asked_for()
    ensures plain { (verb : Verb) (rest : List (List ℕ)) →
        AreOf (kinds_after verb) rest ↔ ((act : ActContent) × Asks (verb_text verb ∷ rest) act) }
    ensures faulty { (verb : FaultyVerb) (rest : List (List ℕ)) →
        AreOf (faulty_kinds verb) rest
        ↔ ((act : FaultyContent) × AsksFaulty (faulty_text verb ∷ rest) act) }
{}

/// A line of at most 519 bytes is given whole, and a longer one not at all.
pub fn short_lines_are_given()
    ensures { (line : List ℕ) (given : Option (Bor (List ℕ))) →
        IsShort line given ↔ (option_map (λ bytes. bytes.now) given
        ≡ (if nat_lt 519 (length line) then None else Some line)) }
{}
