//! What is written of a capture is what the monitor says of its taps.
ghost use Rattle.std.specs.Prelude.{◌≡◌, ◌++◌, ℕ, List, length, map, reverse};
ghost use Rattle.std.specs.List.{Contains, filter};
ghost use Rattle.cct_monitor.specs.Once.{is_between, is_of_at};
ghost use Rattle.cct_monitor.specs.Spans.{spans};
ghost use Rattle.cct_audit_taps.specs.Taps.{quiet_shown, shown};
ghost use Rattle.cct_audit_taps.specs.declared.money.Money.{Money};
ghost use Rattle.cct_monitor.specs.declared.watched.Family.TheVariants as Family;
ghost use Rattle.cct_monitor.specs.Watches.{Came, Watch, all_told, finally_of_all, made_tap};
ghost use Rattle.cct_monitor.specs.Watches.{made_watch};
ghost use Rattle.cct_audit.specs.Capture.{capture};
ghost use Rattle.cct_audit.specs.Joined.{taps_among, watches_in};
ghost use Rattle.cct_audit.specs.Telling.{said_line, told};

/// What is written at the taps is all that the monitor says there, in its order. What came of a
/// capture, up to any line, are its taps, after all devices that it watches: so what is said of
/// them is what a monitor says that watches these devices from the first tap on. And each span of
/// each acceptor that it watches is said once, among all that is said of all devices.
#[tactic(auto, using(crate::proofs::Joined::told_is, crate::proofs::Joined::came_apart, crate::proofs::Joined::spoken_once, crate::proofs::Joined::spoken_quietly))]
pub fn what_is_written_is_said()
    ensures told { (past : List Came) → told past ≡ map said_line (all_told past) }
    ensures apart { (bytes : List ℕ) (past more : List Came) → (capture bytes).came ≡ reverse past ++ more
        → past ≡ map made_tap (taps_among past) ++ map made_watch (watches_in past) }
    ensures once { (bytes : List ℕ) (past more : List Came) (w : Watch) (first last : ℕ)
        → (capture bytes).came ≡ reverse past ++ more → Contains (watches_in past) w → w.family ≡ Family.Acceptor
        → length (filter (is_of_at w.addr first last) (all_told past ++ finally_of_all past))
        ≡ length (filter (is_between first last) (spans (map (shown w.kind w.addr) (taps_among past)))) }
    ensures once_quiet { (bytes : List ℕ) (past more : List Came) (money : Money) (w : Watch) (first last : ℕ)
        → (capture bytes).came ≡ reverse past ++ more → Contains (watches_in past) w → w.family ≡ Family.QuietAcceptor money
        → length (filter (is_of_at w.addr first last) (all_told past ++ finally_of_all past))
        ≡ length (filter (is_between first last) (spans (map (quiet_shown money w.kind w.addr) (taps_among past)))) }
{}
