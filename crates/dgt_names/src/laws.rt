//! Laws of the names. Each function does nothing at run time: its contract states the facts.

ghost use Rattle.std.specs.Prelude.{◌≡◌, ℕ, List, [], ◌∷◌, length, map, slice_index as nth, None, Some, codes, false, true};
ghost use Rattle.dgt_values.specs.Equality.{CloneIsSame, EqualIsSame};
ghost use Rattle.dgt_names.specs.declared.battery.BatteryState.{BatteryState as AnyState};
ghost use Rattle.dgt_names.specs.declared.clock.Button.{Button as AnyButton};
ghost use Rattle.dgt_names.specs.declared.clock.Flags.{Flags as AnyFlags};
ghost use Rattle.dgt_names.specs.declared.clock.Signal.{Signal as AnySignal};
ghost use Rattle.dgt_command.specs.declared.ids.KnownId.{KnownId};
ghost use Rattle.dgt_names.specs.Names.{AreFlags, ArePressed, IsBattery, IsKnownAs, IsSignal, IsText, button_byte};

use crate::battery::BatteryState;
use crate::clock::{Button, Flags, Signal};

/// Two values are equal by `==` exactly if they are the same.
pub fn equal_is_same()
    ensures button { EqualIsSame ⟦<Button as PartialEq>⟧.eq }
    ensures signal { EqualIsSame ⟦<Signal as PartialEq>⟧.eq }
    ensures flags { EqualIsSame ⟦<Flags as PartialEq>⟧.eq }
{}

/// A clone is the value itself, and cloning never fails.
pub fn clone_is_same()
    ensures button { CloneIsSame ⟦<Button as Clone>⟧ }
    ensures signal { CloneIsSame ⟦<Signal as Clone>⟧ }
    ensures flags { CloneIsSame ⟦<Flags as Clone>⟧ }
    ensures battery { CloneIsSame ⟦<BatteryState as Clone>⟧ }
{}

/// The bytes of buttons mean that one was pressed.
pub fn one_is_pressed()
    ensures { (down pressed : ℕ) (one other : AnySignal) →
        ArePressed one down pressed → ArePressed other down pressed → one ≡ other }
{}

/// The bytes of an acknowledgement have one meaning only.
#[tactic(auto, using(crate::proofs::SaidOnce::said))]
pub fn one_is_said()
    ensures { (ack : List ℕ) (one other : AnySignal) →
        IsSignal ack one → IsSignal ack other → one ≡ other }
{}

/// The meaning of acknowledgements, by example.
pub fn signals_by_example()
    ensures buttons { map button_byte (AnyButton.Back ∷ AnyButton.Plus ∷ AnyButton.Run
        ∷ AnyButton.Minus ∷ AnyButton.Ok ∷ []) ≡ 0x31 ∷ 0x32 ∷ 0x33 ∷ 0x34 ∷ 0x35 ∷ [] }
    ensures pressed { IsSignal (0x10 ∷ 0x88 ∷ 0x06 ∷ 0x31 ∷ []) (AnySignal.Pressed AnyButton.Back) }
    ensures asked { IsSignal (0x10 ∷ 0x08 ∷ 0x42 ∷ 0x35 ∷ []) (AnySignal.Pressed AnyButton.Ok) }
    ensures off { IsSignal (0x10 ∷ 0x88 ∷ 0x45 ∷ 0x35 ∷ []) AnySignal.Off }
    ensures no_button { IsSignal (0x10 ∷ 0x08 ∷ 0x00 ∷ 0x00 ∷ []) (AnySignal.Done KnownId.Button) }
    ensures version { IsSignal (0x10 ∷ 0x09 ∷ 0x21 ∷ 0x00 ∷ []) (AnySignal.Version 2 1) }
    ensures ready { IsSignal (0x10 ∷ 0x81 ∷ 0x00 ∷ 0x00 ∷ []) AnySignal.Ready }
    ensures done { IsSignal (0x10 ∷ 0x0b ∷ 0x00 ∷ 0x00 ∷ []) (AnySignal.Done KnownId.Beep) }
    ensures not_ok { ¬ (IsSignal (0x10 ∷ 0x88 ∷ 0x45 ∷ 0x35 ∷ [])
        (AnySignal.Pressed AnyButton.Ok)) }
    ensures no_version { ¬ (IsSignal (0x10 ∷ 0x09 ∷ 0x21 ∷ 0x00 ∷ [])
        (AnySignal.Done KnownId.Version)) }
    ensures failed { (signal : AnySignal) → ¬ (IsSignal (0x11 ∷ 0x0b ∷ 0x00 ∷ 0x00 ∷ []) signal) }
    ensures unknown { (signal : AnySignal) → ¬ (IsSignal (0x10 ∷ 0x88 ∷ 0x02 ∷ 0x36 ∷ []) signal) }
{}

/// A pressed button means more than a reply to the message Button, by example.
pub fn button_is_pressed()
    ensures { ¬ (IsSignal (0x10 ∷ 0x08 ∷ 0x06 ∷ 0x31 ∷ []) (AnySignal.Done KnownId.Button)) }
{}

/// The bits of a time have one meaning only, and so do the bytes of a battery. Bytes mean a signal
/// only after 10, and a battery only if they are nine.
pub fn one_is_meant()
    ensures flags { (carried : ℕ) (one other : AnyFlags) →
        AreFlags carried one → AreFlags carried other → one ≡ other }
    ensures battery { (bytes : List ℕ) (one other : AnyState) →
        IsBattery bytes one → IsBattery bytes other → one ≡ other }
    ensures first { (ack : List ℕ) (signal : AnySignal) → IsSignal ack signal → nth ack 0 ≡ 0x10 }
    ensures nine { (bytes : List ℕ) (state : AnyState) → IsBattery bytes state →
        length bytes ≡ 9 }
{}

/// The meaning of the flags of times, by example.
pub fn flags_by_example()
    ensures blocked { AreFlags 1 (record { blocked = true; per_move = false; fallen = false }) }
    ensures per_move { AreFlags 2 (record { blocked = false; per_move = true; fallen = false }) }
    ensures fallen { AreFlags 4 (record { blocked = false; per_move = false; fallen = true }) }
{}

/// The meaning of battery messages, by example: one battery is at 73 percent and lasts for 4:20
/// hours, and one reports none of that. The boards were on for 1:05 hours, and had been idle for 2
/// days and 3:10 hours.
pub fn batteries_by_example()
    ensures known { IsBattery (73 ∷ 4 ∷ 20 ∷ 1 ∷ 5 ∷ 2 ∷ 3 ∷ 10 ∷ 2 ∷ []) (record {
      percent = Some 73;
      hours_left = Some 4;
      minutes_left = Some 20;
      hours_on = 1;
      minutes_on = 5;
      days_resting = 2;
      hours_resting = 3;
      minutes_resting = 10;
      charging = false;
      discharging = true;
    }) }
    ensures unknown { IsBattery (0x7f ∷ 0x7f ∷ 0x7f ∷ 1 ∷ 5 ∷ 2 ∷ 3 ∷ 10 ∷ 1 ∷ []) (record {
      percent = None;
      hours_left = None;
      minutes_left = None;
      hours_on = 1;
      minutes_on = 5;
      days_resting = 2;
      hours_resting = 3;
      minutes_resting = 10;
      charging = true;
      discharging = false;
    }) }
    ensures short { (state : AnyState) → ¬ (IsBattery (0x64 ∷ []) state) }
{}

/// Bytes are a text if there is at least one, and each is printable.
pub fn texts_by_example()
    ensures text { IsText (codes "DGT ~") }
    ensures none { ¬ (IsText []) }
    ensures below { ¬ (IsText (0x44 ∷ 0x1f ∷ [])) }
    ensures above { ¬ (IsText (0x44 ∷ 0x7f ∷ [])) }
{}
