//! Laws of all live transcripts: what hosts send, record and report, whatever is heard in their
//! exchanges, over any number of lives of the process over one journal. Each is a clause of a
//! function without parameters, whose body is empty, as in `cct_laws`, and goes by a law there: a
//! live transcript is what a legal one shows. Nothing is said of the devices.
//!
//! The clauses `live` are of all lives together, from a journal without records on. The clauses
//! `life` are of one life over the records that a host found in any journal (`IsLife`), whoever
//! wrote them, where each follows those before it. Where earlier lives left these records,
//! `all_lives_are_one` says more.
//!
//! A crate above cites the lemmas of these laws, each of which is named in its function's
//! `Answers.antt`. Beside them it cites `followed_from` of `proofs/Followed.antt`; `by_law` of
//! `proofs/Carrying.antt`, by which a further law of all legal transcripts goes over; `live_over`
//! of `proofs/Joining.antt`, by which one past goes on as another one that has the same jobs and
//! records; `life_begins`, `life_command`, `life_next` and `life_balance` of `proofs/Life.antt`, by
//! which one life begins and goes on; `life_kept` of `proofs/LifeBooks.antt`, and `life_along` of
//! `proofs/LifeLaws.antt`, by which ids and books, and a further fact that each legal step keeps,
//! go along one life; and `fits_by` of `proofs/InTurn.antt`, by which a reply that was got is in
//! the form that its request wants.
#![tactic(auto)]

ghost use Rattle.std.specs.Prelude.{ℕ, ◌≡◌, ◌≢◌, ◌<◌, ◌≤◌, ◌+◌, ◌-◌, true, List, [], ◌++◌, length};
ghost use Rattle.std.specs.Prelude.{Option, Some};
ghost use Rattle.cct_model.specs.lines.command.Command.TheVariants.{Settle};
ghost use Rattle.cct_model.specs.lines.command.CommandNo.TheVariants.{JournalFull};
ghost use Rattle.cct_model.specs.lines.command.CrashAt.{CrashAt};
ghost use Rattle.cct_model.specs.lines.entry.Entry.{Entry};
ghost use Rattle.cct_model.specs.lines.record.Record.{Record};
ghost use Rattle.cct_model.specs.terms.device.Setup.{Setup};
ghost use Rattle.cct_model.specs.Following.{all_follow, follows, is_allowed};
ghost use Rattle.cct_model.specs.Legal.{EntriesOfRestart, due_at, Legal};
ghost use Rattle.cct_model.specs.Money.{freed_by, posted_in, reserved_at_work, spoken_for, totals};
ghost use Rattle.cct_model.specs.Paid.{AreFresh};
ghost use Rattle.cct_model.specs.Records.{records};
ghost use Rattle.cct_model.specs.Refusal.{held, refusal};
ghost use Rattle.cct_model.specs.Transcript.{lines_of, onto, scan_lines};
ghost use Rattle.cct_laws.specs.Balanced.{IsBalanced, IsConserved};
ghost use Rattle.cct_laws.specs.Law.{EachEntry, IsOf, lines_in};
ghost use Rattle.cct_laws.specs.Recorded.{open_orders};
ghost use Rattle.cct_laws_live.specs.Closes.{CloseAt, WasHeardOpen, WasOpened};
ghost use Rattle.cct_laws_live.specs.Counters.{IsTallied, told_in};
ghost use Rattle.cct_laws_live.specs.Life.{EachLife, EachSinceStart, room_over};
ghost use Rattle.cct_laws_live.specs.Live.{EachLive, GoesOnAs, IsOneWith, IsShown, LiveFrom};
ghost use Rattle.cct_laws_live.specs.Live.{started};
ghost use Rattle.cct_laws_live.specs.LiveStep.{LiveStep};
ghost use Rattle.cct_model.specs.terms.device.DeviceSetup.{DeviceSetup};
ghost use Rattle.cct_model.specs.lines.command.Step.{Step};
ghost use Rattle.cct_model.specs.Setup.{IsSoundSetup};
ghost use Rattle.cct_laws_live.specs.Posts.{PostAt};
ghost use Rattle.cct_laws_live.specs.Routes.{RoutedAt, routed_in};
ghost use Rattle.cct_laws_live.specs.Sends.{SentAt, sent_in};
ghost use Rattle.cct_laws_live.specs.Texts.{IsInBytes, IsLifeInBytes};
ghost use Rattle.cct_model.specs.Text.{text};
ghost use Rattle.cct_model.specs.Claims.{AllPast};
ghost use Rattle.cct_model.specs.Job.{job};
ghost use Rattle.cct_laws.specs.Tries.{HasFewTries, ScanTriesAt, failed_in};
ghost use Rattle.cct_laws_live.specs.Tries.{SeenTriesAt};

/// A live transcript is what a legal one shows, whose steps are in range: the same entries, without
/// the faults that were set and the entries that report a forged exchange. In the legal one the
/// bytes that were heard were set before each `next`. So what `cct_laws` says over any wire holds
/// of live hosts too, as far as it speaks of no device.
pub fn a_live_transcript_is_what_a_legal_one_shows()
    ensures { EachLive (λ capacity setup transcript. IsShown capacity setup [] (onto [] transcript)) }
{}

/// All lives are one. A host that starts over a journal knows its records alone. What it then does,
/// it also does after all that the earlier hosts reported, in the same steps and with the same
/// entries. Its start may be after any past, within a put or not. So what it reports after all that
/// they reported is live with it, and the laws below hold over all lives together.
pub fn all_lives_are_one()
    ensures goes_on { (capacity : ℕ) (setup : Setup) (past news : List Entry) (at : Option CrashAt)
        (steps : List LiveStep) (end : List Entry)
        → EntriesOfRestart setup past at news → LiveFrom capacity setup (started (records (news ++ past))) steps end
        → GoesOnAs capacity setup (started (records (news ++ past))) steps end (news ++ past) }
    ensures whole { (capacity : ℕ) (setup : Setup) (lived : List LiveStep) (past news : List Entry)
        (at : Option CrashAt) (steps : List LiveStep) (end : List Entry)
        → LiveFrom capacity setup [] lived past → EntriesOfRestart setup past at news
        → LiveFrom capacity setup (started (records (news ++ past))) steps end
        → IsOneWith capacity setup lived past news at steps end }
{}

/// No id is used twice over all lives, whatever is heard: no two records that open an order or sell
/// have the same id. In one life it is so if it was so of the records that were found.
pub fn no_id_is_used_twice_over_all_lives()
    ensures live { EachLive (λ capacity setup transcript. AreFresh (records (onto [] transcript))) }
    ensures life { EachLife (λ capacity setup found past. AreFresh found → AreFresh (records past)) }
{}

/// Each record follows those before it, whatever is heard, and so does one that a running job is
/// about to put. So a host that starts over the journal of earlier ones refuses none of its
/// records. In one life over any journal they do so too.
pub fn each_record_of_a_life_follows()
    ensures all { EachLive (λ capacity setup transcript. all_follow setup
        (records (onto [] transcript)) ≡ true) }
    ensures due { EachLive (λ capacity setup transcript. (addr : ℕ) (r : Record)
        → due_at setup (onto [] transcript) addr ≡ Some r
        → follows setup (records (onto [] transcript)) r ≡ true) }
    ensures life { EachLife (λ capacity setup found past. all_follow setup (records past) ≡ true) }
    ensures life_due { EachLife (λ capacity setup found past. (addr : ℕ) (r : Record) → due_at setup past addr ≡ Some r
        → follows setup (records past) r ≡ true) }
{}

/// What a running job is about to put, the ledger takes beside what the other jobs reserve,
/// whatever is heard, over all lives and in one life over any journal. It doesn't say that a job
/// ever comes to its put.
pub fn a_ledger_takes_each_put_of_a_life()
    ensures live { EachLive (λ capacity setup transcript. (addr : ℕ) (r : Record)
        → due_at setup (onto [] transcript) addr ≡ Some r
        → (freed_by setup r ≤ reserved_at_work setup (onto [] transcript))
        × (is_allowed setup (records (onto [] transcript))
        (reserved_at_work setup (onto [] transcript) - freed_by setup r) r ≡ true)) }
    ensures life { EachLife (λ capacity setup found past. (addr : ℕ) (r : Record) → due_at setup past addr ≡ Some r
        → (freed_by setup r ≤ reserved_at_work setup past)
        × (is_allowed setup (records past) (reserved_at_work setup past - freed_by setup r) r ≡ true)) }
{}

/// Money is conserved over all lives, whatever is heard. What is available, reserved, paid and sold
/// is together the value of all coins posted, at every moment and in each balance that is reported.
/// What is reserved, paid and sold is never more than that. So it is at every moment of one life
/// over any journal. It says nothing of the coins that fell: a wire that lies about counters makes
/// money.
pub fn money_is_conserved_over_all_lives()
    ensures moments { EachLive (λ capacity setup transcript.
        IsConserved setup (onto [] transcript) (totals setup (onto [] transcript))) }
    ensures balances { EachLive (λ capacity setup transcript. EachEntry (IsBalanced setup)
        (onto [] transcript)) }
    ensures covered { EachLive (λ capacity setup transcript.
        spoken_for setup (onto [] transcript) ≤ posted_in setup (records (onto [] transcript))) }
    ensures life { EachLife (λ capacity setup found past. IsConserved setup past
        (totals setup past)) }
{}

/// A put never meets a full journal, in any life, whatever is heard. Its records and those that are
/// held for running jobs and open orders find room. So one that a job is about to put does, and no
/// settlement is refused for want of it. One life over any journal needs no more room than that
/// journal has, where it has room for one record more for each order that was found open; then no
/// settlement is refused either. Where it hasn't, the life needs no more than these.
pub fn a_put_of_a_life_finds_room()
    ensures held { EachLive (λ capacity setup transcript.
        length (records (onto [] transcript)) + held setup (onto [] transcript) ≤ capacity) }
    ensures puts { EachLive (λ capacity setup transcript. (addr : ℕ) (r : Record)
        → due_at setup (onto [] transcript) addr ≡ Some r → length (records (onto [] transcript)) < capacity) }
    ensures settlements { EachLive (λ capacity setup transcript. (addr used held need : ℕ)
        → refusal capacity setup (onto [] transcript) (Settle addr) ≢ Some (JournalFull used held need)) }
    ensures life_settlements { EachLife (λ capacity setup found past. length found + open_orders setup found ≤ capacity
        → (addr used held need : ℕ)
        → refusal capacity setup past (Settle addr) ≢ Some (JournalFull used held need)) }
    ensures life_held { EachLife (λ capacity setup found past.
        length (records past) + held setup past ≤ room_over capacity setup found) }
    ensures life_puts { EachLife (λ capacity setup found past. (addr : ℕ) (r : Record)
        → due_at setup past addr ≡ Some r → length (records past) < room_over capacity setup found) }
{}

/// A dispense is sent at most once for each order, whatever the wire does: to each device of a
/// sound setup, in every live and in every legal transcript, over all lives and any power cuts.
/// Each exchange of a device's job that sends a dispense sends it under the serial number that the
/// setup has, where an order is open that none was sent for, and for exactly its coins. A start
/// counts as a dispense: for an order that a host finds open it sends none, whatever was sent
/// before. So it is in one life over any journal, too. It doesn't say what the hopper hears: only
/// an honest wire keeps a dispense as it was sent.
pub fn each_order_is_sent_once()
    ensures each { (capacity : ℕ) (setup : Setup) (steps : List Step) (transcript : List Entry) (d : DeviceSetup)
        → IsSoundSetup setup → IsOf setup d → Legal capacity setup steps transcript
        → EachEntry (SentAt d) (onto [] transcript) }
    ensures few { (capacity : ℕ) (setup : Setup) (steps : List Step) (transcript : List Entry) (d : DeviceSetup)
        → IsSoundSetup setup → IsOf setup d → Legal capacity setup steps transcript
        → sent_in (lines_in d transcript) ≤ 1 }
    ensures live_each { EachLive (λ capacity setup transcript. (d : DeviceSetup) → IsOf setup d
        → EachEntry (SentAt d) (onto [] transcript)) }
    ensures live_few { EachLive (λ capacity setup transcript. (d : DeviceSetup) → IsOf setup d
        → sent_in (lines_in d transcript) ≤ 1) }
    ensures life_each { EachLife (λ capacity setup found past. (d : DeviceSetup) → IsOf setup d
        → EachEntry (SentAt d) past) }
    ensures life_few { EachLife (λ capacity setup found past. (d : DeviceSetup) → IsOf setup d
        → sent_in (lines_of d past) ≤ 1) }
{}

/// Each `route` is sent at most once, whatever the wire does: to each device of a sound setup, in
/// every live and in every legal transcript, over all lives and any power cuts. A second request
/// 154 would stack the next customer's bill. Since a `route` was last taken for a bill acceptor, at
/// most one request to route a bill was sent to it. Each one that is sent, by whatever job, is an
/// exchange of the bill acceptor's own job; that is the job of a `route`, the way is the one that
/// was given with it, and none was sent since it was taken. A power cut ends that job, so nothing
/// is sent for it again. So it is in one life over any journal, too. It doesn't say what the bill
/// acceptor hears, nor that a bill is held.
pub fn each_route_is_sent_once()
    ensures each { (capacity : ℕ) (setup : Setup) (steps : List Step) (transcript : List Entry) (d : DeviceSetup)
        → IsSoundSetup setup → IsOf setup d → Legal capacity setup steps transcript
        → EachEntry (RoutedAt d) (onto [] transcript) }
    ensures few { (capacity : ℕ) (setup : Setup) (steps : List Step) (transcript : List Entry) (d : DeviceSetup)
        → IsSoundSetup setup → IsOf setup d → Legal capacity setup steps transcript
        → routed_in d (onto [] transcript) ≤ 1 }
    ensures live_each { EachLive (λ capacity setup transcript. (d : DeviceSetup) → IsOf setup d
        → EachEntry (RoutedAt d) (onto [] transcript)) }
    ensures live_few { EachLive (λ capacity setup transcript. (d : DeviceSetup) → IsOf setup d
        → routed_in d (onto [] transcript) ≤ 1) }
    ensures life_each { EachLife (λ capacity setup found past. (d : DeviceSetup) → IsOf setup d
        → EachEntry (RoutedAt d) past) }
    ensures life_few { EachLife (λ capacity setup found past. (d : DeviceSetup) → IsOf setup d →
        routed_in d past ≤ 1) }
{}

/// What is posted was heard, whatever the wire does, in every live and in every legal transcript,
/// over all lives and any power cuts. Each reading and each break of an acceptor is of four replies
/// that its job heard since its command was taken, in their turn: the accept counter, the credits,
/// the inhibit mask, and the accept counter again. It posts the coins of that one reply of the
/// credits: of the newest events, as many as the reply's counter shows since the event counter that
/// was recorded, and at most five. It shows as lost how many coins the second accept counter shows
/// since the one that was recorded, without those posted. A reading heard the same accept counter
/// twice. The one at which an epoch begins was heard as well. Of a bill acceptor it is so with
/// header 159 for the credits and bills for coins, and no bill is posted of an event that says that
/// it is held. In one life over any journal all this is so of what was put since the start. It says
/// nothing of coins: a wire that lies about counters makes money.
pub fn what_is_posted_was_heard()
    ensures legal { (capacity : ℕ) (setup : Setup) (steps : List Step) (transcript : List Entry) (d : DeviceSetup)
        → IsSoundSetup setup → IsOf setup d → Legal capacity setup steps transcript
        → EachEntry (PostAt d) (onto [] transcript) }
    ensures live { EachLive (λ capacity setup transcript. (d : DeviceSetup) → IsOf setup d
        → EachEntry (PostAt d) (onto [] transcript)) }
    ensures life { EachLife (λ capacity setup found past. (d : DeviceSetup) → IsOf setup d
        → EachSinceStart (PostAt d) past) }
{}

/// What closes an order was heard, whatever the wire does, in every live and in every legal
/// transcript, over all lives and any power cuts. Each order is closed at two life counts of its
/// hopper. The first one was heard in the job that opened the order, which may be one of an earlier
/// life. The second one was heard in the job that closes it: since that began, and since it sent
/// its dispense, if it did, the hopper was heard to have no coin left to pay, and then this life
/// count. Paid are just as many coins as the two counts show, modulo 2^24, and unpaid the others of
/// its count; where they show more than that, both counts are recorded. It is the order that is
/// open then, so none is closed twice. In one life over any journal it is so of what was closed
/// since the start; of an order that was found open the first count is the recorded one. It says
/// nothing of coins: a hopper that lies about its life count makes any number of them paid.
pub fn what_is_closed_was_heard()
    ensures legal { (capacity : ℕ) (setup : Setup) (steps : List Step) (transcript : List Entry) (d : DeviceSetup)
        → IsSoundSetup setup → IsOf setup d → Legal capacity setup steps transcript
        → EachEntry (CloseAt WasHeardOpen d) (onto [] transcript) }
    ensures live { EachLive (λ capacity setup transcript. (d : DeviceSetup) → IsOf setup d
        → EachEntry (CloseAt WasHeardOpen d) (onto [] transcript)) }
    ensures life { EachLife (λ capacity setup found past. (d : DeviceSetup) → IsOf setup d
        → EachSinceStart (CloseAt WasOpened d) past) }
{}

/// No event is posted twice by the counters' own account, whatever the wire does: in the newest
/// epoch of each acceptor, in every live and in every legal transcript. Its readings, and the break
/// that may end it, together post at most as many coins as the event counters show events, each
/// from the recorded one to its own. They report at most as many coins as lost as the accept
/// counters show. Posted and lost together are at least as many as the accept counters show. Over a
/// wire that lies they may be more: a coin is posted where an event counter shows it and no accept
/// counter does, as in `one_round` of `proofs/Worked.antt`. In one life over any journal all this
/// is so if it was so of the records that were found.
pub fn no_event_is_posted_twice()
    ensures legal { (capacity : ℕ) (setup : Setup) (steps : List Step) (transcript : List Entry) (d : DeviceSetup)
        → IsSoundSetup setup → IsOf setup d → Legal capacity setup steps transcript
        → IsTallied (told_in d.addr (records (onto [] transcript))) }
    ensures live { EachLive (λ capacity setup transcript. (d : DeviceSetup) → IsOf setup d
        → IsTallied (told_in d.addr (records (onto [] transcript)))) }
    ensures life { EachLife (λ capacity setup found past. (d : DeviceSetup) → IsOf setup d
        → IsTallied (told_in d.addr found) → IsTallied (told_in d.addr (records past))) }
{}

/// A job of a live host ends for want of an answer exactly after the third failed try in succession
/// of one of its rows, whatever is heard, and so does a scan. That end is after three failed tries,
/// and any other line that the host sees after fewer; a job that goes on has fewer than three. It
/// is so over all lives, and in one life over any journal.
pub fn the_third_failed_try_ends_a_job_in_any_life()
    ensures jobs { EachLive (λ capacity setup transcript. (d : DeviceSetup) → IsOf setup d
        → AllPast SeenTriesAt (lines_in d transcript)) }
    ensures goes_on { EachLive (λ capacity setup transcript. (d : DeviceSetup) → IsOf setup d
        → failed_in (job (lines_in d transcript)) < 3) }
    ensures scans { EachLive (λ capacity setup transcript. AllPast ScanTriesAt
        (scan_lines (onto [] transcript))) }
    ensures scan_goes_on { EachLive (λ capacity setup transcript. HasFewTries
        (job (scan_lines (onto [] transcript)))) }
    ensures life_jobs { EachLife (λ capacity setup found past. (d : DeviceSetup) → IsOf setup d
        → AllPast SeenTriesAt (lines_of d past)) }
    ensures life_goes_on { EachLife (λ capacity setup found past. (d : DeviceSetup) → IsOf setup d
        → failed_in (job (lines_of d past)) < 3) }
    ensures life_scans { EachLife (λ capacity setup found past. AllPast ScanTriesAt
        (scan_lines past)) }
    ensures life_scan_goes_on { EachLife (λ capacity setup found past. HasFewTries
        (job (scan_lines past))) }
{}

/// Where two live transcripts of one setup have the same text, they are the same, whatever their
/// journals take: so whoever reads what the hosts printed knows all that they sent, heard, recorded
/// and reported. So it is with what two lives report, each after its start over any journal. They
/// are in bytes: the address of each `next`, the address and the mask of each command, and all that
/// is heard. It says nothing of the steps, nor of two setups.
pub fn a_text_tells_its_live_transcript()
    ensures live { (capacity room : ℕ) (setup : Setup) (steps others : List LiveStep) (first second : List Entry)
        → IsSoundSetup setup → IsInBytes capacity setup steps first → IsInBytes room setup others second
        → text first ≡ text second → first ≡ second }
    ensures life { (capacity room : ℕ) (setup : Setup) (found others : List Record) (steps more : List LiveStep)
        (first second : List Entry)
        → IsSoundSetup setup → IsLifeInBytes capacity setup found steps first
        → IsLifeInBytes room setup others more second → text first ≡ text second → first ≡ second }
{}
