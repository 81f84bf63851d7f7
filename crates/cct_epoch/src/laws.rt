//! What two event counters show of the events between them.
ghost use Rattle.std.specs.Prelude.{◌≡◌, ◌≤◌, ◌<◌, ◌+◌, ◌%◌, ℕ};
ghost use Rattle.cct_model.specs.Acceptor.{counter};
ghost use Rattle.cct_model.specs.Reading.{distance};

/// Without a reset in between, the counters show at most as many events as came, and show their
/// number modulo 255; so they show it exactly where fewer than 255 came.
#[tactic(auto, using(crate::proofs::Counters::distance_most, crate::proofs::Counters::distance_modulo, crate::proofs::Counters::distance_near))]
pub fn the_event_counter_tells_the_events_that_came()
    ensures most { (came before : ℕ) → distance (counter before) (counter (came + before)) ≤ came }
    ensures modulo { (came before : ℕ) → distance (counter before) (counter (came + before)) % 255
        ≡ came % 255 }
    // So a counter shows exactly how many events came, if fewer than 255 did.
    ensures near { (came before : ℕ) → came < 255 →
        distance (counter before) (counter (came + before)) ≡ came }
{}
