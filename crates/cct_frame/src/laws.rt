//! What holds of messages and the pieces that spell them.
ghost use Rattle.std.specs.Prelude.{◌≡◌, ◌≢◌, ◌↔◌, ◌<◌, ◌≤◌, List, ℕ, [], ◌++◌, All, IsSome};
ghost use Rattle.std.specs.Prelude.{length};
ghost use Rattle.cct_model_wire.specs.Message.{Message, message, spelling};
ghost use Rattle.cct_model_wire.specs.declared.wire.CheckKind.{CheckKind};
ghost use Rattle.cct_frame.specs.Frame.{carried};

use cct_model_wire::CheckKind;

/// A piece of bytes that is a message under a check is the one spelling of that message, which has
/// 255 data bytes at the most. It names its source under the simple check, and nobody under the
/// CRC.
pub fn a_message_is_spelled()
    ensures spelled { (kind : CheckKind) (piece : List ℕ) (m : Message) → All (λ byte. byte < 256) piece
        → message kind piece ≡ Some m → piece ≡ spelling kind m }
    ensures data { (kind : CheckKind) (piece : List ℕ) (m : Message) → message kind piece ≡ Some m
        → length m.body ≤ 255 }
    ensures source { (kind : CheckKind) (piece : List ℕ) (m : Message) → message kind piece ≡ Some m
        → (IsSome m.from ↔ (kind ≡ CheckKind.Simple)) }
{}

/// A message of 255 data bytes at most is read back from its spelling: under the simple check where
/// it names its source, and under the CRC without its source.
pub fn what_is_spelled_is_read_back()
    ensures simple { (m : Message) → length m.body ≤ 255 → IsSome m.from
        → message CheckKind.Simple (spelling CheckKind.Simple m) ≡ Some m }
    ensures crc { (m : Message) → length m.body ≤ 255
        → message CheckKind.Crc (spelling CheckKind.Crc m) ≡ Some (carried CheckKind.Crc m) }
{}

/// What one call of `write` wrote is read back, and alone: with anything after it, it is no message
/// of its check.
pub fn what_is_written_is_read_back()
    ensures back { (kind : CheckKind) (m : Message) → length m.body ≤ 255 → IsSome m.from
        → message kind (spelling kind m) ≡ Some (carried kind m) }
    ensures alone { (kind : CheckKind) (m : Message) (more : List ℕ) → length m.body ≤ 255 → IsSome m.from
        → more ≢ [] → message kind (spelling kind m ++ more) ≡ None }
{}

/// No message goes on to be another: one that begins with a message of the same check is that
/// message.
pub fn no_message_begins_another()
    ensures { (kind : CheckKind) (piece more : List ℕ) (m n : Message) → message kind piece ≡ Some m
        → message kind (piece ++ more) ≡ Some n → more ≡ [] }
{}
