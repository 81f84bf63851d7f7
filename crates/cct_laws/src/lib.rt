//! Laws of all legal transcripts, over the definitions of `cct_model`: each is a clause of a
//! function without parameters, whose body is empty. They hold of a setup of several devices, of
//! all kinds and under both checks, with power cuts at every step and after each disk call of a
//! put. `specs/Scope.antt` names the transcripts and the devices that a law is of.
//!
//! Each goes by cases on what one step brought (`Brought` of `proofs/jobs/StepBrings.antt`, to
//! which `tells` of `proofs/jobs/EntriesOfStep.antt` leads from the definition of legal), or on how
//! that is seen from one device (`seen_from` of `proofs/jobs/SeenAtOne.antt`); `along` there
//! carries a fact over all steps. That an exchange was forged is no part of what a step brought: a
//! fact goes over the entry that shows so by a clause of its own.
//!
//! A crate above cites the lemmas of these laws, each of which is named in its function's
//! `Answers.antt`. Beside them it cites:
//!
//! - `kept_legal`, `kept_since_legal` and `kept_hopper_legal` of `proofs/steps/AllKept.antt`, by
//!   which any fact of a device holds that each thing that can come keeps; `along` of
//!   `proofs/jobs/SeenAtOne.antt`, by which one of all entries does;
//! - `setup_sound`, `steps_of_today` and `front_of_today` of `proofs/text/Scripts.antt`, and there
//!   `legal_right` and `played_right`, which say six laws at once; `legal_written` of
//!   `proofs/text/Texts.antt`;
//! - for a host that restarts over its records `proofs/money/EpochsReplayed.antt`, which says what
//!   each further record shows, and `proofs/money/Restarts.antt`, which says what entries a power
//!   cut leaves;
//! - `on_wire` of `proofs/wire/ForgedEntriesLast.antt`: the entries of a `next`, and after an
//!   exchange that was forged the one that says so, are those of a `next` on the wire of a machine;
//! - `books_legal` of `proofs/money/Books.antt`: of every legal past, ids are in order and the
//!   books are kept;
//! - `steady_step` of `proofs/jobs/Tries.antt`, `polls_step` of `proofs/jobs/Scans.antt` and
//!   `good_step` of `proofs/text/Texts.antt`, by which tries, polls and what is written go along
//!   from any past on;
//! - `kept_due_allowed` of `proofs/money/Journal.antt` and `kept_restart_suits` of
//!   `proofs/money/Restarts.antt`: a ledger then takes what a job is about to put, and a power cut
//!   is survived.
#![tactic(auto)]

ghost use Rattle.std.specs.Prelude.{ℕ, ◌≡◌, ◌↔◌, ◌<◌, ◌≤◌, ◌⊎◌, false, List, [], ◌++◌, None, true};
ghost use Rattle.std.specs.Prelude.{Option, Some, ◌≢◌, ◌+◌, ◌-◌, length};
ghost use Rattle.std.specs.List.{All};
ghost use Rattle.std.specs.List.Sorted.{IsPermutation};
ghost use Rattle.cct_model.specs.terms.coin.Coin.{Coin};
ghost use Rattle.cct_model.specs.terms.device.DeviceSetup.{DeviceSetup};
ghost use Rattle.cct_model.specs.terms.device.Setup.{Setup};
ghost use Rattle.cct_model.specs.terms.request.Request.{Request};
ghost use Rattle.cct_model.specs.declared.judging.Judged.{Judged};
ghost use Rattle.cct_model.specs.lines.record.Record.TheVariants.{Broken};
ghost use Rattle.cct_model.specs.declared.judging.EpochState.TheVariants.{Idle, Running};
ghost use Rattle.cct_model.specs.lines.command.Command.{Command};
ghost use Rattle.cct_model.specs.lines.command.Command.TheVariants.{Round, Settle};
ghost use Rattle.cct_model.specs.lines.command.CrashAt.{CrashAt};
ghost use Rattle.cct_model.specs.lines.command.Step.{Step};
ghost use Rattle.cct_model.specs.lines.command.WireFault.{WireFault};
ghost use Rattle.cct_model.specs.lines.command.WireFault.TheVariants.{Clear};
ghost use Rattle.cct_model.specs.lines.entry.Entry.{Entry};
ghost use Rattle.cct_model.specs.terms.wire.TheConstants.{BROADCAST};
ghost use Rattle.cct_model.specs.Acceptor.{accepts, credits_in};
ghost use Rattle.cct_model.specs.Claims.{AllPast, InOrder, Covers, Pace};
ghost use Rattle.cct_model.specs.Device.{IsAcceptor, IsTaker};
ghost use Rattle.cct_model.specs.Exchange.{ask, by_address};
ghost use Rattle.cct_model.specs.Job.{works, job, epoch, sends, puts, Noted};
ghost use Rattle.cct_model.specs.Rows.{row, row_at};
ghost use Rattle.cct_model.specs.AtDesk.{AtDeskFrom, EntriesAtDesk, LeavesDesk, LegalAtDesk};
ghost use Rattle.cct_model.specs.Change.{Desk};
ghost use Rattle.cct_model.specs.Legal.{Entries, EntriesOfRestart, Legal, LegalFrom, due_at};
ghost use Rattle.cct_model.specs.Line.{Line};
ghost use Rattle.cct_model.specs.Reading.{coins_among};
ghost use Rattle.cct_model.specs.Script.{IsInRange, script};
ghost use Rattle.cct_model.specs.Setup.{IsSoundSetup};
ghost use Rattle.cct_model.specs.Text.{text};
ghost use Rattle.cct_model.specs.Transcript.{pending, met, lines_of, scan_lines, onto};
ghost use Rattle.cct_model.specs.terms.request.Request.TheVariants.{Dispense};
ghost use Rattle.cct_model.specs.lines.record.Record.{Record};
ghost use Rattle.cct_model.specs.lines.command.CommandNo.TheVariants.{JournalFull};
ghost use Rattle.cct_model.specs.Hopper.{remaining};
ghost use Rattle.cct_model.specs.Order.{order};
ghost use Rattle.cct_model.specs.Records.{records, epoch_in, order_in, greatest_id};
ghost use Rattle.cct_model.specs.Money.{posted_in, reserved_at_work, freed_by, spoken_for, totals};
ghost use Rattle.cct_model.specs.Refusal.{held, last_id, refusal};
ghost use Rattle.cct_model.specs.Following.{all_follow, follows, is_allowed};
ghost use Rattle.cct_model.specs.Paid.{Paid, OfOrder, AreFresh, dispenses, fallen};
ghost use Rattle.cct_laws.specs.Honesty.{DamagesHonestly};
ghost use Rattle.cct_laws.specs.Desks.{IsRightDesk};
ghost use Rattle.cct_laws.specs.DeviceJobs.{IsRefused};
ghost use Rattle.cct_laws.specs.Balanced.{IsBalanced, IsConserved};
ghost use Rattle.cct_laws.specs.Coins.{all_fallen, all_paid};
ghost use Rattle.cct_laws.specs.LifeCounts.{FitsLife};
ghost use Rattle.cct_laws.specs.PaidOut.{is_paid_out};
ghost use Rattle.cct_laws.specs.Recorded.{HasNoJob, IsRestart, open_orders, totals_in};
ghost use Rattle.cct_laws.specs.Ending.{nexts_at, EndsRound, IsUndisturbed, IsOnlyMovedByCoins};
ghost use Rattle.cct_laws.specs.Ending.{nexts_needed, is_payment, EndsAs, AlwaysFindsNoneLeft};
ghost use Rattle.cct_laws.specs.Faults.{FailsByFault, EchoFailsByFault, EndsByFaults};
ghost use Rattle.cct_laws.specs.Faults.{may_be_refused, FailsByFaultBut};
ghost use Rattle.cct_model.specs.Honest.{Honest, IsAllUnforged, IsHonestFault};
ghost use Rattle.cct_laws.specs.Law.{AreOfToday, AreRising, Begins, EachEntry, HasBytes};
ghost use Rattle.cct_laws.specs.Law.{IsAnswered, IsOf, IsUnanswered, NamesNoPut, lines_in};
ghost use Rattle.cct_laws.specs.Moving.{MovesWithCoins, NoStopMoves};
ghost use Rattle.cct_laws.specs.Right.{IsRight};
ghost use Rattle.cct_laws.specs.Scope.{EachHopper, EachTaker, EachTranscript, IsCommandFor};
ghost use Rattle.cct_laws.specs.SinceEpoch.{AcceptsInEpochs, since_epoch_in, mask_set_in};
ghost use Rattle.cct_laws.specs.SinceEpoch.{IsMaskedBy, MayBreak, HaveCauses};
ghost use Rattle.cct_laws.specs.Takers.{events_of};
ghost use Rattle.cct_laws.specs.Tallying.{AlwaysTallies};
ghost use Rattle.cct_laws.specs.Tries.{TriesAt, ScanTriesAt, HasFewTries, failed_in};

/// Where no fault is set for the next exchange, a job at a device of a sound setup gets an answer
/// to each request that it sends, where its command suits the device. The device replies, and the
/// host gets just that reply, in the form that the request wants. Only a dispense that the hopper
/// doesn't take, and the routing of a bill that the bill acceptor doesn't hold, may be refused; the
/// host then gets nothing. A coin acceptor refuses nothing. The other devices of the setup may be
/// of any kind, and of either check. Nothing is said of the devices that a scan polls.
pub fn an_undisturbed_exchange_is_answered()
    ensures { (setup : Setup) (past : List Entry) (d : DeviceSetup) (command : Command) (rows : ℕ) (judged : Judged)
        (noted : Noted) (q : Request)
        → IsCommandFor setup d command → pending past ≡ Clear → row_at d command rows judged noted ≡ sends q
        → IsAnswered setup d past q ⊎ (IsRefused d (met d past) q × IsUnanswered setup d past q) }
{}

/// The test of an honest fault says exactly what honest damage is. The bytes that the devices hear
/// are no message. Where no address poll is sent, the bytes that the host hears are none, nor are
/// those after the host's own echo.
pub fn an_honest_fault_does_honest_damage()
    ensures means { (f : WireFault) (sent : List ℕ) → IsHonestFault f sent →
        DamagesHonestly f sent }
    ensures tested { (f : WireFault) (sent : List ℕ) → DamagesHonestly f sent →
        IsHonestFault f sent }
{}

/// A legal transcript shows an honest wire exactly if no line of it reports a forged exchange. So
/// whoever reads it sees whether the laws over an honest wire speak of it. It holds of every setup
/// and of all steps, in range or not. It says nothing of a transcript that isn't legal, and it
/// doesn't say what a forged exchange does.
pub fn honest_as_told()
    ensures { (capacity : ℕ) (setup : Setup) (steps : List Step) (transcript : List Entry)
        → Legal capacity setup steps transcript → (Honest transcript ↔ IsAllUnforged transcript) }
{}

/// Where an honest fault is set for the next exchange, such a job gets the device's own reply to
/// what it asks, or nothing: damage never makes another reply of it. A fault is honest if its bytes
/// fail their check. What the device refuses gets nothing.
pub fn an_honest_exchange_gets_the_reply_or_nothing()
    ensures { (setup : Setup) (past : List Entry) (d : DeviceSetup) (command : Command) (rows : ℕ) (judged : Judged)
        (noted : Noted) (q : Request)
        → IsCommandFor setup d command → IsHonestFault (pending past) (ask d.kind d.addr q)
        → row_at d command rows judged noted ≡ sends q
        → IsUnanswered setup d past q ⊎ IsAnswered setup d past q }
{}

/// A round that was just taken at an acceptor, of coins or of bills, ends within five `next` at its
/// address, where no fault is set for one of its own exchanges and the power isn't cut before.
/// Nothing came, a reading is put, a break, or the reading has to be made again; and that only if a
/// coin was accepted between its two readings of the accept counter. Its past is legal. Whatever
/// else comes between them doesn't hinder it: coins, bills, resets, commands, the jobs of other
/// devices, and faults set for the exchanges of those, or of later jobs. It doesn't say what the
/// round posts.
pub fn a_round_without_a_fault_ends()
    ensures ends { (capacity : ℕ) (setup : Setup) (before : List Step) (past : List Entry) (d : DeviceSetup)
        (steps : List Step) (end : List Entry)
        → IsSoundSetup setup → IsOf setup d → IsTaker d.body → LegalFrom capacity setup [] before past
        → job (lines_of d past) ≡ works (Round d.addr) []
        → 5 ≤ nexts_at d.addr steps → LegalFrom capacity setup past steps end → IsUndisturbed d.addr past end
        → EndsRound d.addr past end }
    ensures moved { (capacity : ℕ) (setup : Setup) (before : List Step) (past : List Entry) (d : DeviceSetup)
        (steps : List Step) (end : List Entry)
        → IsSoundSetup setup → IsOf setup d → IsTaker d.body → LegalFrom capacity setup [] before past
        → job (lines_of d past) ≡ works (Round d.addr) [] → LegalFrom capacity setup past steps end
        → IsUndisturbed d.addr past end → IsOnlyMovedByCoins d past end }
{}

/// Every job at a device that was just taken ends in the same way, within as many `next` at its
/// address as it has rows, and for a payment one more for each halt. A start ends within 5, a stop
/// within 7, a payment within 7, a settlement within 3, an identification within one for each of
/// its questions, the setting of a path within 2, the routing of a bill within 1. A payment and a
/// settlement do so where no coin is left to pay whenever the hopper is asked how its payout goes.
/// The end is one of a job that got its answers, never one for want of an answer; the routing of a
/// bill that isn't held is refused, and ends unsure. That a reading has to be made again ends a
/// stop too only if a coin was accepted between its two readings of the accept counter. It doesn't
/// say which coins were paid, nor that coins fall.
pub fn a_job_without_a_fault_ends()
    ensures ends { (capacity : ℕ) (setup : Setup) (before : List Step) (past : List Entry) (d : DeviceSetup)
        (command : Command) (steps : List Step) (end : List Entry)
        → IsCommandFor setup d command → LegalFrom capacity setup [] before past
        → job (lines_of d past) ≡ works command [] → nexts_needed d command steps ≤ nexts_at d.addr steps
        → LegalFrom capacity setup past steps end → IsUndisturbed d.addr past end
        → (is_payment command ≡ true → AlwaysFindsNoneLeft d past end)
        → EndsAs command d.addr past end }
    ensures moved { (capacity : ℕ) (setup : Setup) (before : List Step) (past : List Entry) (d : DeviceSetup)
        (command : Command) (steps : List Step) (end : List Entry)
        → IsCommandFor setup d command → IsTaker d.body → LegalFrom capacity setup [] before past
        → job (lines_of d past) ≡ works command [] → LegalFrom capacity setup past steps end
        → IsUndisturbed d.addr past end → IsOnlyMovedByCoins d past end }
{}

/// Posts are accepted coins in their order, none twice, for every acceptor of the setup, of coins
/// or of bills, in every legal transcript over an honest wire. A bill is accepted as it is stacked,
/// so one that was only held, or was given back, is never posted. Each record's posts are the
/// newest coins of its part, which begins where the part of the record or the clean end before it
/// ended. It holds whatever is asked besides, however exchanges fail, and whenever a device is
/// reset. It doesn't say that a coin is ever posted: that takes a round that ends.
pub fn posts_in_order()
    ensures { EachTaker (λ d transcript. InOrder (lines_in d transcript)) }
{}

/// No coin that came before a completed reading is lost in silence in such a transcript, nor a bill
/// that was stacked. A reading or a break shows as lost exactly the coins of its part that it
/// doesn't post, and a clean end and the end of an epoch have no coin in theirs. So it is whenever
/// the acceptor is reset, and however many other objects come. The premise is the pace: fewer than
/// 2^24 coins are accepted from each record that begins an epoch up to the next such record. It
/// doesn't say which coins were lost.
pub fn none_lost_in_silence()
    ensures { EachTaker (λ d transcript. Pace (lines_in d transcript) →
        Covers (lines_in d transcript)) }
{}

/// After each line, the coins up to the mark are exactly as many as all records of the acceptor up
/// to then together post and report as lost, under the same pace. The mark is the number of coins
/// up to which its last record or clean end reports. So at every moment what was posted and what
/// was reported as lost is together what was accepted, up to the last reading that reported
/// anything.
pub fn coins_up_to_the_mark_are_tallied()
    ensures { EachTaker (λ d transcript. Pace (lines_in d transcript) →
        AlwaysTallies (lines_in d transcript)) }
{}

/// If a job of an acceptor ends because its reading has to be made again, a coin was accepted
/// meanwhile: after the accept counter was read the first time, before the credits, and before it
/// was read the second time. It holds in every legal transcript over an honest wire, at any pace.
/// It doesn't say that the next reading posts that coin.
pub fn a_reading_made_again_met_a_coin()
    ensures { EachTaker (λ d transcript. MovesWithCoins (lines_in d transcript)) }
{}

/// No stop of an acceptor ends because its reading has to be made again, in every legal transcript
/// over an honest wire: every coin is inhibited before it reads, so none is accepted while it does.
/// It doesn't say that a stop ends. On a wire that isn't honest a forged message may let coins in
/// again, and then a stop may end so.
pub fn no_stop_is_made_again()
    ensures { EachTaker (λ d transcript. NoStopMoves (lines_in d transcript)) }
{}

/// A job at a device ends for want of an answer exactly after the third failed try in succession of
/// one of its rows. In every legal transcript that end is after three failed tries, and any other
/// line of the address after fewer; a job that goes on has fewer than three. The row that stops a
/// payout after a halt counts its own tries. It holds whatever the wire does, at devices of any
/// kind, and over power cuts, which free every job.
pub fn third_failed_try_ends_a_job()
    ensures exact { (capacity : ℕ) (setup : Setup) (steps : List Step) (transcript : List Entry)
        (d : DeviceSetup)
        → IsSoundSetup setup → IsOf setup d → Legal capacity setup steps transcript
        → AllPast TriesAt (lines_in d transcript) }
    ensures goes_on { (capacity : ℕ) (setup : Setup) (steps : List Step) (transcript : List Entry)
        (d : DeviceSetup)
        → IsSoundSetup setup → IsOf setup d → Legal capacity setup steps transcript
        → failed_in (job (lines_in d transcript)) < 3 }
{}

/// A scan, which is a job at no device, ends for want of an answer exactly after the third failed
/// try in succession of an address poll under one of the checks. A try of it fails where the host's
/// own echo is damaged. Any other line of address 0, a power cut too, is after fewer.
pub fn third_failed_try_ends_a_scan()
    ensures exact { (capacity : ℕ) (setup : Setup) (steps : List Step) (transcript : List Entry)
        → IsSoundSetup setup → Legal capacity setup steps transcript
        → AllPast ScanTriesAt (scan_lines (onto [] transcript)) }
    ensures goes_on { (capacity : ℕ) (setup : Setup) (steps : List Step) (transcript : List Entry)
        → IsSoundSetup setup → Legal capacity setup steps transcript
        → HasFewTries (job (scan_lines (onto [] transcript))) }
{}

/// An exchange that fails had a fault, which was set for it. It fails where a coin acceptor's job
/// didn't get the wanted reply; where a job at a device of any kind didn't get it to anything but a
/// dispense or the routing of a bill, which the device may refuse; and where the host didn't hear
/// its own echo. Nothing is asked of the wire, nor of the damage that the fault does.
pub fn a_failed_exchange_had_a_fault()
    ensures replies { (capacity : ℕ) (setup : Setup) (steps : List Step) (transcript : List Entry)
        (d : DeviceSetup)
        → IsSoundSetup setup → IsOf setup d → IsAcceptor d.body → All IsInRange steps
        → Legal capacity setup steps transcript → EachEntry (FailsByFault d) (onto [] transcript) }
    ensures any_kind { (capacity : ℕ) (setup : Setup) (steps : List Step) (transcript : List Entry)
        (d : DeviceSetup)
        → IsSoundSetup setup → IsOf setup d → All IsInRange steps → Legal capacity setup steps transcript
        → EachEntry (FailsByFaultBut may_be_refused d) (onto [] transcript) }
    ensures echoes { (capacity : ℕ) (setup : Setup) (steps : List Step) (transcript : List Entry)
        → Legal capacity setup steps transcript → EachEntry EchoFailsByFault (onto [] transcript) }
{}

/// A job ends for want of an answer only by faults. Where a job at a device of any kind or a scan
/// ends so, a fault was set for each of the last three exchanges that it made. So no job ends so
/// whose exchanges have no fault. It doesn't say that three faults end a job.
pub fn a_job_given_up_had_three_faults()
    ensures jobs { (capacity : ℕ) (setup : Setup) (steps : List Step) (transcript : List Entry) (d : DeviceSetup)
        → IsSoundSetup setup → IsOf setup d → All IsInRange steps → Legal capacity setup steps transcript
        → EachEntry (EndsByFaults d.addr) (onto [] transcript) }
    ensures scans { (capacity : ℕ) (setup : Setup) (steps : List Step) (transcript : List Entry)
        → IsSoundSetup setup → Legal capacity setup steps transcript
        → EachEntry (EndsByFaults BROADCAST) (onto [] transcript) }
{}

/// Whatever bytes a script has, its setup is sound, and its steps and every front of them are in
/// range, say bytes and are played. So the laws above hold of them, also where a line of the script
/// is refused. The devices of the setup may be of any kind.
pub fn scripts_are_in_range()
    ensures setup { (bytes : List ℕ) → IsSoundSetup (script bytes).setup }
    ensures steps { (bytes : List ℕ) → AreOfToday (script bytes).steps }
    ensures fronts { (bytes : List ℕ) (played rest : List Step) → (script bytes).steps ≡ played ++ rest
        → AreOfToday played }
{}

/// The money of a script that was played up to any of its steps is right. Over an honest wire each
/// device of its setup posts in order, where a hopper posts nothing; each that keeps the pace loses
/// no coin in silence, and its coins up to the mark are as many as its records post and report as
/// lost; and each hopper pays each order at most once, and closes it with exactly the coins that
/// fell. Whatever the wire does, no id is in two of its records, and the transcript shows an honest
/// wire exactly if no line reports a forged exchange.
pub fn played_scripts_keep_the_laws()
    ensures { (capacity : ℕ) (bytes : List ℕ) (played rest : List Step) (transcript : List Entry)
        → (script bytes).steps ≡ played ++ rest → Legal capacity (script bytes).setup played transcript
        → IsRight (script bytes).setup transcript }
{}

/// By address, in which order a bus has its devices answer, the devices of a setup are the same
/// devices, each as often as in the setup; and where the setup is sound, their addresses strictly
/// rise.
pub fn by_address_devices_are_the_same_rising()
    ensures same { (devices : List DeviceSetup) → IsPermutation devices (by_address devices) }
    ensures rising { (setup : Setup) → IsSoundSetup setup → AreRising (by_address setup.devices) }
{}

/// Steps decide their legal transcript with the operator's desk, as long as none of them is a power
/// cut that names a put. If one list of steps continues another, the legal transcript of the
/// shorter begins that of the longer; and of the transcripts of two fronts of one list one begins
/// the other. Both are over the same setup and a journal of the same capacity. It says nothing of a
/// power cut that names a put: there the disk may keep the record or not. And it says nothing of
/// what is legal with some desk: there a `change` may begin a session or find one that runs.
pub fn steps_tell_their_transcript()
    ensures longer { (capacity : ℕ) (setup : Setup) (played rest : List Step) (shorter longer : List Entry)
        → All NamesNoPut played → LegalAtDesk capacity setup played shorter → LegalAtDesk capacity setup (played ++ rest) longer
        → Begins shorter longer }
    ensures fronts { (capacity : ℕ) (setup : Setup) (steps played unplayed others more : List Step)
        (first second : List Entry)
        → All NamesNoPut steps → steps ≡ played ++ unplayed → steps ≡ others ++ more
        → LegalAtDesk capacity setup played first → LegalAtDesk capacity setup others second
        → Begins first second ⊎ Begins second first }
{}

/// What is legal with the operator's desk is legal, where the setup is sound and the steps are in
/// range: so every law of legal transcripts holds of those that a machine with a desk writes. A
/// desk is right whose payments have ids of at least 1 and whose trays stand at addresses that are
/// bytes. One at which nothing was done is right, each step keeps it so, and at a right desk each
/// step has entries that are legal. It says nothing of what is legal and not so with that desk: a
/// session that begins while another runs, or one that pays what no plan says.
pub fn what_is_legal_at_the_desk_is_legal()
    ensures whole { (capacity : ℕ) (setup : Setup) (steps : List Step) (transcript : List Entry)
        → IsSoundSetup setup → All IsInRange steps → LegalAtDesk capacity setup steps transcript
        → Legal capacity setup steps transcript }
    ensures leaves { (capacity : ℕ) (setup : Setup) (steps : List Step) (transcript : List Entry) (last : Desk)
        → IsSoundSetup setup → All IsInRange steps → LeavesDesk capacity setup steps transcript last
        → Legal capacity setup steps transcript × IsRightDesk last }
    ensures goes_on { (capacity : ℕ) (setup : Setup) (past : List Entry) (desk : Desk) (steps : List Step)
        (end : List Entry) (last : Desk)
        → All IsInRange steps → IsRightDesk desk → AtDeskFrom capacity setup past desk steps end last
        → LegalFrom capacity setup past steps end × IsRightDesk last }
    ensures each { (capacity : ℕ) (setup : Setup) (past : List Entry) (desk : Desk) (s : Step) (news : List Entry)
        → IsRightDesk desk → EntriesAtDesk capacity setup past desk s news → Entries capacity setup past s news }
{}

/// A text shows its legal transcript: two legal transcripts of one setup with the same text are the
/// same. The setup is sound, and the steps are in range and say bytes. Nothing is asked of the
/// wire, nor of the kinds of the devices, nor of how many entries there are, and the two may be
/// over journals of different capacities. Of scripts it holds without a premise, whatever bytes
/// they have, played up to any of their steps, and their setups may differ. It doesn't say that a
/// text shows its steps: other steps may have the same entries.
pub fn a_text_tells_its_transcript()
    ensures steps { (capacity room : ℕ) (setup : Setup) (steps others : List Step) (first second : List Entry)
        → IsSoundSetup setup → All IsInRange steps → All HasBytes steps → All IsInRange others → All HasBytes others
        → Legal capacity setup steps first → Legal room setup others second → text first ≡ text second
        → first ≡ second }
    ensures scripts { (capacity room : ℕ) (bytes other : List ℕ) (played rest others more : List Step)
        (first second : List Entry)
        → (script bytes).steps ≡ played ++ rest → (script other).steps ≡ others ++ more
        → Legal capacity (script bytes).setup played first → Legal room (script other).setup others second
        → text first ≡ text second → first ≡ second }
{}

/// A coin is accepted only while an epoch runs at its acceptor, and a bill is stacked only then.
/// Where none runs, an acceptor lets no coin and no bill in: its inhibit mask is 0, or its master
/// inhibit is set. It holds in every legal transcript over an honest wire, whenever the acceptor is
/// reset, and wherever a start, a round, a stop or the routing of a bill ended for want of an
/// answer.
pub fn no_coin_is_accepted_without_an_epoch()
    ensures accepted { EachTaker (λ d transcript. AcceptsInEpochs (lines_in d transcript)) }
    ensures inhibits { EachTaker (λ d transcript. epoch (lines_in d transcript) ≡ Idle → (place : ℕ)
        → accepts (met d (onto [] transcript)) place ≡ false) }
{}

/// While an epoch with a mask runs at an acceptor, its inhibit mask is that one or 0. It is the
/// epoch's mask just where the acceptor heard the epoch's own header 231 since the Epoch record,
/// and was not reset after that. It doesn't say that a start whose 231 was sent is answered.
pub fn a_running_epoch_sets_its_mask_or_none()
    ensures { EachTaker (λ d transcript. (mask counter accepts : ℕ)
        → epoch (lines_in d transcript) ≡ Running mask counter accepts
        → IsMaskedBy mask (since_epoch_in d transcript) (met d (onto [] transcript))) }
{}

/// While an epoch runs at an acceptor that didn't hear the epoch's header 231 since the Epoch
/// record, or was reset after that, none of its events since its last reset is a credit, as they
/// are judged: that of a bill which is held is none. So no pair of its buffer is one.
pub fn after_a_reset_no_event_is_a_credit()
    ensures events { EachTaker (λ d transcript. (mask counter accepts : ℕ)
        → epoch (lines_in d transcript) ≡ Running mask counter accepts → mask_set_in (since_epoch_in d transcript) ≡ None
        → coins_among (events_of d.body (met d (onto [] transcript))) ≡ []) }
    ensures pairs { EachTaker (λ d transcript. (mask counter accepts : ℕ)
        → epoch (lines_in d transcript) ≡ Running mask counter accepts → mask_set_in (since_epoch_in d transcript) ≡ None
        → coins_among (credits_in (events_of d.body (met d (onto [] transcript)))).pairs ≡ []) }
{}

/// An epoch breaks only with a cause. A job at an acceptor has a Broken record to put only where,
/// since the Epoch record, the acceptor was reset, or heard no header 231. The same holds of each
/// Broken record in the transcript, at the moment when it was put. It doesn't say that such an
/// epoch breaks: that takes a round or a stop that reads the mask.
pub fn a_break_has_its_cause()
    ensures waiting { EachTaker (λ d transcript. (command : Command) (since : List Line)
        (addr seen counter lost accepts : ℕ) (posted : List Coin)
        → job (lines_in d transcript) ≡ works command since
        → row d command since (epoch (lines_in d transcript)) (order (lines_in d transcript))
        ≡ puts (Broken addr seen counter lost accepts posted)
        → MayBreak (since_epoch_in d transcript)) }
    ensures put { EachTaker (λ d transcript. HaveCauses d (onto [] transcript)) }
{}

/// Each order is paid at most once, and closed with exactly the coins that fell, for every hopper
/// of the setup, in every legal transcript over an honest wire. A dispense is taken only where an
/// order is open that none was taken for, and for just its coins. A coin falls only for an open
/// order, no more of them than it has. A closed order's record says how many fell and how many of
/// its count did not. Whatever replies are lost, and whenever the hopper jams, is halted or is
/// reset, or the power is cut. It doesn't say that an order is ever completed, or closed.
pub fn each_order_is_paid_once()
    ensures { EachHopper (λ d transcript. Paid (lines_in d transcript)) }
{}

/// All coins that ever fell out of a hopper are those that the records of its closed orders say
/// were paid, and those that fell for the order that is open. So where none is open, they are what
/// was recorded. It follows from `each_order_is_paid_once` alone.
pub fn coins_that_fell_are_those_paid()
    ensures all { (lines : List Line) → Paid lines → all_fallen lines ≡ all_paid lines
        + fallen lines }
    ensures closed { (lines : List Line) → Paid lines → order lines ≡ None → all_fallen lines
        ≡ all_paid lines }
{}

/// No id is used twice: in every legal transcript, whatever the wire does and whenever the power is
/// cut, no two records that open an order or sell have the same id. An id that was never recorded
/// may be used again.
pub fn no_id_is_used_twice()
    ensures { (capacity : ℕ) (setup : Setup) (steps : List Step) (transcript : List Entry)
        → IsSoundSetup setup → Legal capacity setup steps transcript → AreFresh (records (onto [] transcript)) }
{}

/// A hopper without an open order has nothing left to pay: no coin falls out of it. It holds over
/// an honest wire.
pub fn an_unowed_hopper_has_nothing_to_pay()
    ensures { EachHopper (λ d transcript. order (lines_in d transcript) ≡ None
        → remaining d.serial (met d (onto [] transcript)) ≡ 0) }
{}

/// A hopper that has shown that nothing is left to pay has nothing left to pay until the next order
/// is opened. It has shown it by an answered header 166 with no coin remaining; while no order is
/// opened after that, no coin falls out of it. It holds in every legal transcript over an honest
/// wire, between jobs too: after a payment or a settlement that ended for want of an answer, after
/// one that closed its order, and over power cuts. It doesn't say that a hopper ever shows it.
pub fn a_hopper_shown_paid_out_stays_so()
    ensures { EachHopper (λ d transcript. is_paid_out (lines_in d transcript) ≡ true
        → remaining d.serial (met d (onto [] transcript)) ≡ 0) }
{}

/// A job sends a dispense only to its own hopper, and only where an order of just its coins is open
/// that no dispense was taken for. It holds over an honest wire. It doesn't say that the hopper
/// takes it.
pub fn a_dispense_is_for_a_fresh_order()
    ensures { EachHopper (λ d transcript. (command : Command) (since : List Line) (serial count : ℕ)
        → job (lines_in d transcript) ≡ works command since
        → row d command since (epoch (lines_in d transcript)) (order (lines_in d transcript))
        ≡ sends (Dispense serial count)
        → (serial ≡ d.serial)
        × OfOrder (order (lines_in d transcript)) (λ o. (dispenses (lines_in d transcript) ≡ 0) × (count ≡ o.count))) }
{}

/// The life counts of a hopper always fit its order: over an honest wire no record says that they
/// don't, and no job ends so, in every legal transcript.
pub fn life_counts_fit_each_order()
    ensures { EachTranscript (λ capacity setup transcript. Honest transcript →
        EachEntry FitsLife (onto [] transcript)) }
{}

/// What the records alone show: the epoch of an acceptor and the open order of a hopper are those
/// that the device's address and the records show, after any entries whatever. Where the power was
/// just cut, in a put or not, no job is left, and what the operator has, the last id and how many
/// records are held are what the records show. So a host that is built from a journal needs nothing
/// else.
pub fn records_tell_what_a_host_needs()
    // After any entries.
    ensures epochs { (d : DeviceSetup) (past : List Entry)
        → epoch (lines_of d past) ≡ epoch_in d.addr (records past) }
    ensures orders { (d : DeviceSetup) (past : List Entry)
        → order (lines_of d past) ≡ order_in d.addr (records past) }
    // After a power cut, which leaves no job.
    ensures restart { (past : List Entry) → IsRestart past → HasNoJob past }
    ensures entries { (setup : Setup) (past : List Entry) (at : Option CrashAt) (news : List Entry)
        → EntriesOfRestart setup past at news → HasNoJob (news ++ past) }
    ensures totals { (setup : Setup) (past : List Entry) → HasNoJob past
        → totals setup past ≡ totals_in setup (records past) }
    ensures last_id { (setup : Setup) (past : List Entry) → HasNoJob past
        → last_id setup past ≡ greatest_id (records past) }
    ensures held { (setup : Setup) (past : List Entry) → HasNoJob past
        → held setup past ≡ open_orders setup (records past) }
{}

/// Each record follows those before it, and so does one that a running job is about to put, in
/// every legal transcript, whatever the wire does and whenever the power is cut. So a host that is
/// built from them, and its ledger, refuses none. It doesn't say that a hopper paid what a record
/// says.
pub fn each_record_follows()
    ensures all { EachTranscript (λ capacity setup transcript. all_follow setup
        (records (onto [] transcript)) ≡ true) }
    ensures due { EachTranscript (λ capacity setup transcript. (addr : ℕ) (r : Record)
        → due_at setup (onto [] transcript) addr ≡ Some r
        → follows setup (records (onto [] transcript)) r ≡ true) }
{}

/// What a running job is about to put, the ledger takes beside what the other jobs reserve, in
/// every legal transcript, whatever the wire does. A payment reserves the coins of the order that
/// it opens until it puts that, and a sale its price, so neither is refused for want of money. It
/// doesn't say that a job ever comes to its put.
pub fn a_ledger_takes_each_put()
    ensures { EachTranscript (λ capacity setup transcript. (addr : ℕ) (r : Record)
        → due_at setup (onto [] transcript) addr ≡ Some r
        → (freed_by setup r ≤ reserved_at_work setup (onto [] transcript))
        × (is_allowed setup (records (onto [] transcript))
        (reserved_at_work setup (onto [] transcript) - freed_by setup r) r ≡ true)) }
{}

/// Money is conserved, in every legal transcript, whatever the wire does. What is available,
/// reserved, paid and sold is together the value of all coins posted, at every moment and in each
/// balance that is reported. What is reserved, paid and sold is never more than that.
pub fn money_is_conserved()
    ensures moments { EachTranscript (λ capacity setup transcript.
        IsConserved setup (onto [] transcript) (totals setup (onto [] transcript))) }
    ensures balances { EachTranscript (λ capacity setup transcript. EachEntry (IsBalanced setup)
        (onto [] transcript)) }
    ensures covered { EachTranscript (λ capacity setup transcript.
        spoken_for setup (onto [] transcript) ≤ posted_in setup (records (onto [] transcript))) }
{}

/// A put never meets a full journal, in every legal transcript, whatever the wire does. Its records
/// and those that are held for running jobs and open orders find room. So one that a job is about
/// to put does, and no settlement is refused for want of it.
pub fn a_put_finds_room()
    ensures held { EachTranscript (λ capacity setup transcript.
        length (records (onto [] transcript)) + held setup (onto [] transcript) ≤ capacity) }
    ensures puts { EachTranscript (λ capacity setup transcript. (addr : ℕ) (r : Record)
        → due_at setup (onto [] transcript) addr ≡ Some r → length (records (onto [] transcript)) < capacity) }
    ensures settlements { EachTranscript (λ capacity setup transcript. (addr used held need : ℕ)
        → refusal capacity setup (onto [] transcript) (Settle addr) ≢ Some (JournalFull used held need)) }
{}
