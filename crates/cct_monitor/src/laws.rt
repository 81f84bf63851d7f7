//! What holds of whatever comes to a monitor.
ghost use Rattle.std.specs.Prelude.{◌≡◌, ◌≤◌, ◌++◌, ℕ, true, Option, List, [], length, map};
ghost use Rattle.std.specs.Prelude.{reverse};
ghost use Rattle.std.specs.List.{All, Contains, filter};
ghost use Rattle.cct_audit_taps.specs.declared.shown.Shown.{Shown};
ghost use Rattle.cct_monitor.specs.Confirmed.{confirms, is_confirmed, is_sure};
ghost use Rattle.cct_monitor.specs.Once.{all_quietly, all_said, is_between, is_of};
ghost use Rattle.cct_monitor.specs.Spans.{Reading, Span, goes_on, quietly, said_at, said_last};
ghost use Rattle.cct_monitor.specs.Spans.{spans, spans_by, surely};
ghost use Rattle.cct_audit_taps.specs.Taps.{Tap};
ghost use Rattle.cct_monitor.specs.Watches.{Watch, accounts, by_address, from_begin, made_tap};
ghost use Rattle.cct_monitor.specs.Watches.{made_watch};

/// Where the taps come after all devices that are to be watched, as in a capture, each device is
/// watched from the first tap on, and they stand in rising order of address.
#[tactic(auto, using(crate::proofs::Captures::from_the_begin))]
pub fn a_capture_is_watched_whole()
    ensures { (watches : List Watch) (taps : List Tap)
        → accounts (map made_tap taps ++ map made_watch watches) ≡ map (from_begin taps) (by_address watches) }
{}

/// What a tap makes sure of an acceptor are exactly the spans that it confirms, the older first. A
/// span isn't confirmed when it is new, and stays confirmed once it is, so each is said to be sure
/// once, at the first tap that confirms it.
pub fn a_tap_makes_sure_what_it_confirms()
    ensures sure { (addr : ℕ) (s : Shown) (past : List Shown)
        → filter is_sure (said_at addr s past) ≡ map (surely addr) (reverse (filter (confirms s) (spans past))) }
    ensures new { (s : Shown) (found : Option Reading) (number : ℕ)
        → filter is_confirmed (spans_by s found number) ≡ [] }
    ensures stays { (s : Shown) (span : Span) → is_confirmed span ≡ true →
        is_confirmed (goes_on s span) ≡ true }
{}

/// Each span of an acceptor is said once, at a tap or at the end of the taps: to be sure where it
/// was confirmed, with its coins, and else to be in doubt. Of one that is watched for resets alone
/// each is said once, at its last reading. No two spans are between the same readings, so what is
/// said of one is said of no other.
pub fn each_span_is_said_once()
    ensures once { (first last addr : ℕ) (past : List Shown)
        → length (filter (is_of first last) (all_said addr past ++ said_last addr past))
        ≡ length (filter (is_between first last) (spans past)) }
    ensures confirmed { (first last addr : ℕ) (past : List Shown)
        → length (filter (is_of first last) (filter is_sure (all_said addr past)))
        ≡ length (filter (is_between first last) (filter is_confirmed (spans past))) }
    ensures told { (addr : ℕ) (past : List Shown)
        → All (λ span. is_confirmed span ≡ true → Contains (all_said addr past) (surely addr span)) (spans past) }
    ensures quietly { (first last addr : ℕ) (past : List Shown)
        → length (filter (is_of first last) (all_quietly addr past)) ≡ length (filter (is_between first last) (spans past)) }
    ensures each_quietly { (addr : ℕ) (past : List Shown)
        → All (λ span. Contains (all_quietly addr past) (quietly addr span)) (spans past) }
    ensures at_most_one { (first last : ℕ) (past : List Shown)
        → length (filter (is_between first last) (spans past)) ≤ 1 }
{}
