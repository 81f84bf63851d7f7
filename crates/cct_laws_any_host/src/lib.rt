//! What a monitor says of any host's wire is true (`docs/AUDIT.md`): a law over the definitions of
//! `cct_model` and `cct_monitor`, the clauses of a function without parameters, whose body is
//! empty.
//!
//! A run of any host (`specs/Wild.antt`) is a list of what comes to the devices from outside, with
//! faults of the wire, and of exchanges in which a host sends whatever bytes it likes, to whomever.
//! Nothing is asked of the host: not that it makes the jobs of ours, that it spells a message or
//! names itself as the source, nor that it is alone. Asked are a sound setup, steps in their
//! ranges, and a wire whose damage fails its check.
#![tactic(auto)]

ghost use Rattle.std.specs.Prelude.{◌≡◌, ◌≢◌, ◌+◌, ◌≤◌, ◌++◌, ℕ, true, false, Some, List, []};
ghost use Rattle.std.specs.Prelude.{length, map};
ghost use Rattle.std.specs.List.{All, Contains, filter, list_any};
ghost use Rattle.cct_model.specs.terms.coin.TheConstants.{EVENTS};
ghost use Rattle.cct_model.specs.terms.device.DeviceSetup.{DeviceSetup};
ghost use Rattle.cct_model.specs.terms.device.Setup.{Setup};
ghost use Rattle.cct_model.specs.lines.entry.Entry.{Entry};
ghost use Rattle.cct_model.specs.lines.command.WireFault.TheVariants as fault;
ghost use Rattle.cct_model.specs.terms.request.Request.TheVariants.{GetMask, ReadCredits};
ghost use Rattle.cct_model.specs.Acceptor.{credits_of, mask_of};
ghost use Rattle.cct_model.specs.Device.{IsAcceptor};
ghost use Rattle.cct_model.specs.Exchange.{ask};
ghost use Rattle.cct_model.specs.Honest.{HonestPast};
ghost use Rattle.cct_model.specs.Setup.{IsSoundSetup};
ghost use Rattle.cct_model.specs.Transcript.{heard_after, lines_of, met, pending};
ghost use Rattle.cct_laws.specs.Law.{IsOf};
ghost use Rattle.cct_audit_taps.specs.declared.shown.Shown.TheVariants.{Masked, Read};
ghost use Rattle.cct_audit_taps.specs.declared.money.Money.{Money};
ghost use Rattle.cct_monitor.specs.declared.watched.Family.TheVariants as Family;
ghost use Rattle.cct_monitor.specs.Once.{all_said, is_between, is_of};
ghost use Rattle.cct_monitor.specs.Spans.{Reading, is_set, last_reading, said_last, spans};
ghost use Rattle.cct_audit_taps.specs.Taps.{shown, tap_of};
ghost use Rattle.cct_monitor.specs.Watches.{Watch, all_told, finally_of_all, made_tap, made_watch};
ghost use Rattle.cct_laws_any_host.specs.Claims.{AreApart, IsPlain, IsQuietSpan, IsSureWherePlain};
ghost use Rattle.cct_laws_any_host.specs.Claims.{IsToldQuiet, IsToldWhole, IsTrue, IsWatchOf};
ghost use Rattle.cct_laws_any_host.specs.Claims.{IsWatched, after_round, came_before, looks};
ghost use Rattle.cct_laws_any_host.specs.Claims.{pieces, quiet_looks, span_of_round};
ghost use Rattle.cct_laws_any_host.specs.Wild.{WildStep, WildFrom, taps};

/// All that a monitor says at the taps of a run of any host and at their end is true, where each
/// device that it watches is one of the setup, watched as what it is. What is said of an acceptor,
/// of coins or of bills, that is watched for resets alone is true if no reset came between the two
/// readings. The coins of a span that is sure are the newest of those that the acceptor accepted
/// between its readings, in their order; where fewer than 255 pieces came between them, they are
/// all of these. As many coins fell out of a hopper between two life counts as is said, where that
/// number is below 2 ^ 24.
///
/// No coin is in two spans of an acceptor: a span begins no earlier than each older one ends. And
/// each span is said once, at a tap or at the end of the taps. These two hold over any wire; so
/// over an honest wire no coin is said to be sure twice.
pub fn what_a_monitor_says_is_true()
    ensures is_true { (setup : Setup) (steps : List WildStep) (past : List Entry) (watches : List Watch)
        → IsSoundSetup setup → All (IsWatched setup) watches → WildFrom setup [] steps past → HonestPast past
        → All (IsTrue setup past) (all_told (map made_tap (taps past) ++ map made_watch watches)
        ++ finally_of_all (map made_tap (taps past) ++ map made_watch watches)) }
    ensures apart { (d : DeviceSetup) (past : List Entry) → AreApart d past (spans (looks d past)) }
    ensures once { (first last : ℕ) (d : DeviceSetup) (past : List Entry)
        → length (filter (is_of first last) (all_said d.addr (looks d past) ++ said_last d.addr (looks d past)))
        ≡ length (filter (is_between first last) (spans (looks d past))) }
    ensures at_most_one { (first last : ℕ) (d : DeviceSetup) (past : List Entry)
        → length (filter (is_between first last) (spans (looks d past))) ≤ 1 }
{}

/// A monitor is sure wherever it can be. A span of an acceptor between whose readings fewer than
/// 255 pieces came is sure just where no tap between its readings shows a setting, at most five
/// pieces came between them, as many as the credit buffer keeps, and a tap of its window shows a
/// mask other than 0. That no reset came isn't asked: the mask shows it. Such a span is reported
/// with just the coins that the acceptor accepted between its readings. Of an acceptor that is
/// watched for resets alone no mask is wanted: each span is so reported where no tap between its
/// readings asks for a reset, none came, and it had at most five events.
///
/// And a host can see to it. Whatever came before, over any wire, its 229 and its 230 without a
/// fault show the credits and the mask of the acceptor. So a host that asks 229 and then 230 makes
/// the span of that round plain, if no setting came since its last reading, at most five pieces
/// did, and the mask isn't 0.
pub fn a_monitor_is_sure_where_it_can_be()
    ensures complete { (setup : Setup) (steps : List WildStep) (past : List Entry) (d : DeviceSetup)
        → IsSoundSetup setup → IsOf setup d → IsAcceptor d.body → WildFrom setup [] steps past → HonestPast past
        → All (IsSureWherePlain d past) (spans (looks d past)) }
    ensures told { (setup : Setup) (steps : List WildStep) (past : List Entry) (watches : List Watch) (w : Watch) (d : DeviceSetup)
        → IsSoundSetup setup → WildFrom setup [] steps past → HonestPast past
        → Contains watches w → w.family ≡ Family.Acceptor → IsOf setup d → IsWatchOf w d
        → All (λ span. IsPlain d past span
        → IsToldWhole d past (all_told (map made_tap (taps past) ++ map made_watch watches)) span) (spans (looks d past)) }
    ensures told_quiet { (setup : Setup) (steps : List WildStep) (past : List Entry) (watches : List Watch) (money : Money) (w : Watch)
        (d : DeviceSetup) → IsSoundSetup setup → WildFrom setup [] steps past → HonestPast past
        → Contains watches w → w.family ≡ Family.QuietAcceptor money → IsOf setup d → IsWatchOf w d
        → All (λ span. IsQuietSpan d past span
        → IsToldQuiet d past (all_told (map made_tap (taps past) ++ map made_watch watches)) span) (spans (quiet_looks money d past)) }
    ensures credits { (setup : Setup) (d : DeviceSetup) (past : List Entry)
        → IsSoundSetup setup → IsOf setup d → IsAcceptor d.body → pending past ≡ fault.Clear
        → shown d.kind d.addr (tap_of (ask d.kind d.addr ReadCredits) (heard_after setup past (ask d.kind d.addr ReadCredits)))
        ≡ Read (credits_of (met d past)) }
    ensures mask { (setup : Setup) (d : DeviceSetup) (past : List Entry)
        → IsSoundSetup setup → IsOf setup d → IsAcceptor d.body → pending past ≡ fault.Clear
        → shown d.kind d.addr (tap_of (ask d.kind d.addr GetMask) (heard_after setup past (ask d.kind d.addr GetMask)))
        ≡ Masked (mask_of (met d past)) }
    ensures round { (setup : Setup) (d : DeviceSetup) (past : List Entry) (r : Reading)
        → IsSoundSetup setup → IsOf setup d → IsAcceptor d.body → pending past ≡ fault.Clear
        → last_reading (looks d past) ≡ Some r → list_any is_set r.after ≡ false
        → pieces (lines_of d past) ≤ came_before d past r.number + EVENTS → mask_of (met d past) ≢ 0
        → Contains (spans (looks d (after_round setup d past))) (span_of_round d past r)
        × IsPlain d (after_round setup d past) (span_of_round d past r) }
{}
