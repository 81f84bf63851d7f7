//! What holds of every echo.
ghost use Rattle.std.specs.Prelude.{◌≡◌, ◌↔◌, ◌<◌, List, ℕ, Some, None, ◌++◌, length};
ghost use Rattle.cct_model_wire.specs.Exchange.{after_echo};
ghost use Rattle.cct_wire.specs.Echo.{echo_place};

/// What follows a whole echo is all that is heard after it, and an echo is damaged exactly where
/// its first damaged place is one of what was sent.
pub fn an_echo_is_whole_or_damaged()
    ensures whole { (sent rest : List ℕ) → after_echo sent (sent ++ rest) ≡ Some rest }
    ensures only { (sent heard rest : List ℕ) → after_echo sent heard ≡ Some rest → heard ≡ sent
        ++ rest }
    ensures damaged { (sent heard : List ℕ) → (after_echo sent heard ≡ None) ↔
        (echo_place sent heard < length sent) }
{}
