//! The requests of words, by example. Nothing here runs: the contract of each function states a
//! fact.

ghost use Rattle.std.specs.Prelude.{◌≡◌, ℕ, List, [], ◌∷◌, ◌++◌, Ok, codes, length, replicate};
ghost use Rattle.std.specs.Str.{IsAscii};
ghost use Rattle.hex.specs.Hex.{decode_of, decode_sized};
ghost use Rattle.dgt_command.specs.declared.ids.KnownId.{KnownId};
ghost use Rattle.dgt_command.specs.Content.{Battery, Clock, ClockContent, ClockMessage, CommandContent, Dump, Leds, LongSerial, Reset, Serial, Trademark, Update, UpdateBoard, UpdateNice, Version, known_clock};
ghost use Rattle.dgt_command.specs.Display.{Shows};
ghost use Rattle.dgt_command.specs.Encoding.{command_encoding};
ghost use Rattle.dgt_ask.specs.declared.details.Detail.{Detail};
ghost use Rattle.dgt_ask.specs.Asks.{AskInOrder, Asks, AsksBytes, IsNoStray, LacksOperand, detail_text};

/// Each word without an operand requests its command.
pub fn names_ask()
    ensures modes { Asks (codes "reset") Reset × Asks (codes "update") Update
        × Asks (codes "updateboard") UpdateBoard × Asks (codes "updatenice") UpdateNice }
    ensures requests { Asks (codes "clock") Clock × Asks (codes "dump") Dump
        × Asks (codes "serial") Serial × Asks (codes "longserial") LongSerial
        × Asks (codes "trademark") Trademark × Asks (codes "battery") Battery
        × Asks (codes "version") Version }
    ensures clock { Asks (codes "end") (ClockMessage (known_clock KnownId.End []))
        × Asks (codes "button") (ClockMessage (known_clock KnownId.Button []))
        × Asks (codes "clockversion") (ClockMessage (known_clock KnownId.Version [])) }
{}

/// The operands of the other words, at their limits.
pub fn details_ask()
    ensures beep { Asks (codes "beep 255") (ClockMessage (known_clock KnownId.Beep (255 ∷ []))) }
    ensures display { (letters : List ℕ) (message : ClockContent) → length letters ≡ 6
        → Shows letters 0 0 message → Asks (codes "display " ++ letters) (ClockMessage message) }
    ensures display_bytes { (digits bytes : List ℕ) → decode_sized digits 8 ≡ Ok bytes
        → Asks (codes "display " ++ digits) (ClockMessage (known_clock KnownId.Display bytes)) }
    ensures text { (letters : List ℕ) → length letters ≡ 8 → IsAscii letters
        → Asks (codes "text " ++ letters)
        (ClockMessage (known_clock KnownId.Text (letters ++ 0 ∷ []))) }
    ensures text_bytes { (digits bytes : List ℕ) → decode_sized digits 9 ≡ Ok bytes
        → Asks (codes "text " ++ digits) (ClockMessage (known_clock KnownId.Text bytes)) }
    ensures icons { (digits bytes : List ℕ) → decode_of digits ≡ Ok bytes → length bytes ≡ 252
        → Asks (codes "icons " ++ digits) (ClockMessage (known_clock KnownId.Icons bytes)) }
    ensures set_and_run { (digits bytes : List ℕ) → decode_sized digits 7 ≡ Ok bytes
        → Asks (codes "setandrun " ++ digits)
        (ClockMessage (known_clock KnownId.SetAndRun bytes)) }
    ensures clock_message { (digits bytes : List ℕ) → decode_of digits ≡ Ok bytes
        → length bytes ≡ 252 → Asks (codes "clockmessage fF " ++ digits)
        (ClockMessage (record { id = 255; payload = bytes })) }
    ensures other_size { Asks (codes "clockmessage 0b -")
        (ClockMessage (record { id = 11; payload = [] })) }
    ensures leds { (digits bytes : List ℕ) → decode_of digits ≡ Ok bytes → length bytes ≡ 255
        → Asks (codes "leds " ++ digits) (Leds bytes) }
    ensures no_leds { Asks (codes "leds -") (Leds []) }
{}

/// A word that requests a command requests its bytes. Other words request other bytes, and `stray`
/// only one byte that begins no command.
pub fn bytes_are_asked()
    ensures command { (word : List ℕ) (command : CommandContent) → Asks word command
        → AsksBytes word (command_encoding command) }
    ensures follow { AsksBytes (codes "follow") (0x44 ∷ 0x42 ∷ []) }
    ensures restart { AsksBytes (codes "restart") (replicate 255 0 ++ 0x44 ∷ 0x42 ∷ []) }
    ensures log { AsksBytes (codes "log") (0x49 ∷ []) }
    ensures stray { AsksBytes (codes "stray 4f") (0x4f ∷ []) }
    ensures no_stray { IsNoStray (codes "42") × IsNoStray (codes "4f4f") }
{}

/// An empty list of words requests no bytes, and a list requests the bytes of its words in order.
pub fn words_ask_in_order()
    ensures none { AskInOrder [] [] }
    ensures more { (word asked : List ℕ) (words others : List (List ℕ)) → AsksBytes word asked
        → AskInOrder words others → AskInOrder (word ∷ words) (asked ∷ others) }
{}

/// A line ends before an operand if its last word needs one, or if an id is its last word. Words
/// that ask for help are no ids.
pub fn operands_are_missing()
    ensures alone { (word : Detail) → LacksOperand word (detail_text word ∷ []) }
    ensures id { LacksOperand Detail.ClockMessage (codes "clockmessage" ∷ codes "ff" ∷ [])
        × ¬ (LacksOperand Detail.ClockMessage (codes "clockmessage" ∷ codes "--help" ∷ []))
        × ¬ (LacksOperand Detail.ClockMessage (codes "clockmessage" ∷ codes "-h" ∷ []))
        × ¬ (LacksOperand Detail.Beep (codes "beep" ∷ codes "1" ∷ [])) }
{}
