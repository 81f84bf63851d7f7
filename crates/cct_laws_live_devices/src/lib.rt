//! Laws of live hosts over devices as `cct_model` has them: of worlds, in which hosts and devices
//! are together; of a port over a line on which each device answers within the longest time, or
//! never, which hears nothing late; and of the money of hosts on a line, where the line and its
//! devices keep what is asked of them.
#![tactic(auto)]

ghost use Rattle.std.specs.Prelude.{ℕ, ◌≡◌, ◌==◌, true, false, List, [], ◌∷◌, ◌++◌, Option, Some};
ghost use Rattle.std.specs.Prelude.{◌⊎◌, ◌≤◌, Bool};
ghost use Rattle.cct_model.specs.terms.device.Setup.{Setup};
ghost use Rattle.cct_model.specs.lines.command.CrashAt.{CrashAt};
ghost use Rattle.cct_model.specs.lines.entry.Entry.{Entry};
ghost use Rattle.cct_model.specs.lines.record.Record.{Record};
ghost use Rattle.cct_model.specs.Legal.{EntriesOfRestart};
ghost use Rattle.cct_model.specs.Records.{records};
ghost use Rattle.cct_model.specs.Script.{IsCrash};
ghost use Rattle.cct_model.specs.Transcript.{answers, heard_by_devices, onto, pending, heard_after};
ghost use Rattle.cct_model.specs.lines.command.WireFault.TheVariants.{Clear, DevicesHear};
ghost use Rattle.cct_model.specs.lines.command.WireFault.TheVariants.{HostHears};
ghost use Rattle.cct_model.specs.lines.entry.Entry.TheVariants.{Fault, Wire};
ghost use Rattle.cct_model.specs.terms.wire.TheConstants.{BROADCAST};
ghost use Rattle.cct_laws.specs.Honesty.{IsNoMessage};
ghost use Rattle.cct_model.specs.Exchange.{ask, asks_of};
ghost use Rattle.cct_model.specs.Honest.{IsHonestFault};
ghost use Rattle.cct_model.specs.lines.command.WireFault.{WireFault};
ghost use Rattle.cct_model.specs.terms.device.DeviceSetup.{DeviceSetup};
ghost use Rattle.cct_model.specs.terms.request.Request.{Request};
ghost use Rattle.cct_model.specs.terms.wire.CheckKind.{CheckKind};
ghost use Rattle.cct_laws_live_devices.specs.Questions.{is_question};
ghost use Rattle.cct_laws_live.specs.Life.{EachLife, IsLife};
ghost use Rattle.cct_laws_live.specs.Live.{EachLive, started};
ghost use Rattle.cct_laws_live.specs.LiveStep.{LiveStep};
ghost use Rattle.cct_laws_live_devices.specs.World.{AnswersAt, IsNoReply, OverDevices};
ghost use Rattle.cct_laws_live_devices.specs.Asked.{Moment, OverAskedDevices, entries};
ghost use Rattle.cct_laws_live_devices.specs.Played.{IsPlayed, mended};
ghost use Rattle.cct_laws_live_devices.specs.Real.{IsRightIn};
ghost use Rattle.cct_laws_live_devices.specs.Whole.{IsWhole};
ghost use Rattle.cct_live_port.specs.declared.port.Port.{Port};
ghost use Rattle.cct_live_port.specs.Port.{Gives, options_of, line_of, settled, silent_of};
ghost use Rattle.cct_laws_live_devices.specs.Prompt.{InSomeWorld, IsOwnAnswer, IsPrompt, IsQuiet};
ghost use Rattle.cct_laws_live_devices.specs.Prompt.{OneReplies};
ghost use Rattle.cct_model.specs.Setup.{IsSoundSetup};
ghost use Rattle.cct_laws_live_devices.specs.Chain.{Chain};
ghost use Rattle.cct_laws_live_devices.specs.AtOnce.{coming_on, history_on, reads_on, silent_on};
ghost use Rattle.cct_laws_live_devices.specs.AtOnce.{writes_on};
ghost use Rattle.cct_laws_live_devices.specs.Lives.{HaveLived, IsHonestLine, IsPortOf, IsRightOver};

use cct_live_port::Line;

/// A world over which live hosts reported a transcript, with devices that answer as the model's do,
/// is what a bench says that plays some script: their commands, and between them what happened to
/// the devices. So all that `cct_laws` promises of a bench's run holds of it.
pub fn a_world_of_live_hosts_is_a_run_of_a_bench()
    ensures { EachLive (λ capacity setup transcript. (world : List Entry) → OverDevices setup world (onto [] transcript)
        → IsPlayed capacity setup (mended setup world)) }
{}

/// The money is right of what live hosts reported over devices that answer as the model's do. In
/// one life over the records that it found it is so together with all that earlier hosts reported,
/// from a journal without records on.
pub fn no_coin_is_posted_twice_on_a_real_line()
    ensures live { EachLive (λ capacity setup transcript. (world : List Entry) → OverDevices setup world (onto [] transcript)
        → IsRightIn setup world (onto [] transcript)) }
    ensures life { EachLife (λ capacity setup found past. (whole world : List Entry)
        → IsWhole capacity setup found past whole → OverDevices setup world whole → IsRightIn setup world whole) }
{}

/// The first life over a new journal is all that was reported, and a further one is after that.
pub fn lives_stand_behind_one_another()
    ensures first { (capacity : ℕ) (setup : Setup) (steps : List LiveStep) (past : List Entry)
        → IsLife capacity setup [] steps past → IsWhole capacity setup [] past past }
    ensures next { (capacity : ℕ) (setup : Setup) (found left : List Record) (steps : List LiveStep)
        (past whole next news told : List Entry) (at : Option CrashAt) → IsLife capacity setup found steps past
        → IsWhole capacity setup found past whole → IsCrash at → EntriesOfRestart setup whole at news
        → records (news ++ whole) ≡ left → next ≡ told ++ started left
        → IsWhole capacity setup left next (told ++ (news ++ whole)) }
{}

/// Questions that no host reports change nothing: who a device is, and which coins it knows. So
/// where devices were asked them, the world without them is one in which devices answer as the
/// model's do, and the laws above hold of it. The bytes of such a question ask nothing else of any
/// device, under either check, damaged or not.
pub fn questions_may_be_left_out_of_a_world()
    ensures left_out { (setup : Setup) (world : List Moment) (past : List Entry) → OverAskedDevices setup world past
        → OverDevices setup (entries world) past }
    ensures asked { (d : DeviceSetup) (f : WireFault) (kind : CheckKind) (addr : ℕ) (q : Request)
        → is_question (Some q) ≡ true → IsHonestFault f (ask kind addr q)
        → is_question (asks_of d (heard_by_devices f (ask kind addr q))) ≡ true }
{}

/// Each exchange that goes right or brings no reply is in some world. In one that goes right the
/// host hears its echo and what the devices answer. In one with a single address that brings no
/// reply, whatever the host hears, the devices heard what was sent, and acted; or they heard
/// something else that is no message, and did nothing. Both are of an honest wire.
pub fn a_lost_exchange_stands_in_some_world()
    ensures right { (setup : Setup) (past : List Entry) (addr : ℕ) (sent : List ℕ) → pending past ≡ Clear
        → AnswersAt setup past (Wire addr sent (sent ++ answers setup past sent)) × IsHonestFault (pending past) sent }
    ensures answer { (setup : Setup) (past : List Entry) (addr : ℕ) (sent piece : List ℕ)
        → (addr == BROADCAST) ≡ false → IsNoReply sent piece
        → AnswersAt setup (Fault (HostHears []) ∷ past) (Wire addr sent piece) × IsHonestFault (HostHears []) sent }
    ensures request { (setup : Setup) (past : List Entry) (addr : ℕ) (sent piece heard : List ℕ)
        → (addr == BROADCAST) ≡ false → IsNoReply sent piece → IsNoMessage heard
        → AnswersAt setup (Fault (DevicesHear heard) ∷ past) (Wire addr sent piece)
        × IsHonestFault (DevicesHear heard) sent }
{}

/// Silence makes a line prompt. Where each device answers within the longest time or never, and
/// nothing comes after a whole reply, what a port hears in an exchange is the echo and what was
/// answered to just what it sent, or a front of that; or the exchange failed, and nothing is heard.
/// Then nothing late is under way either, if the port was answered.
pub fn what_is_heard_was_answered_to_what_was_sent<L: Line>()
    ensures { (echoes : Bool) (longest : ℕ) (coming : L → List ℕ) (silent : L → ℕ) (answer : L → List ℕ → List ℕ)
        → IsPrompt L.reads L.writes longest coming silent answer → OneReplies L.reads L.writes echoes answer
        → (old new : Port L) (sent heard : List ℕ) → longest ≤ (options_of old).longest
        → (options_of old).echoes ≡ echoes → IsQuiet L.reads L.writes coming silent old
        → Gives L.reads L.writes old sent heard new
        → (IsOwnAnswer L.reads L.writes coming answer old sent heard ⊎ (heard ≡ []))
        × IsQuiet L.reads L.writes coming silent new }
{}

/// What was heard so is what devices answer in some world, where the whole of what they answered is
/// the model's: either all of it was heard, or no reply was. The devices hear the same in that
/// world.
pub fn what_is_heard_stands_in_some_world()
    ensures { (setup : Setup) (past : List Entry) (addr : ℕ) (sent heard rest : List ℕ) → (addr == BROADCAST) ≡ false
        → IsHonestFault (pending past) sent → heard_after setup past sent ≡ heard ++ rest
        → (rest ≡ []) ⊎ IsNoReply sent heard → InSomeWorld setup past addr sent heard }
{}

/// Over an honest line no coin is posted twice or lost in silence, and no order is paid twice, over
/// all lives of the hosts on it. Of a line is asked that each device on it does what the model's
/// does and answers within the longest answer time or never, and that damage of the wire fails its
/// check. Of the hosts is known that each life is one, and that the exchanges that it reports are
/// those that its port gave; both are promised by `cct_live_service`. The coins are those of all
/// that happened to the devices on the line. A law: its body is empty.
pub fn over_an_honest_line_the_money_is_right<L: Line>()
    ensures { (echoes : Bool) (longest : ℕ) (coming : L → List ℕ) (silent : L → ℕ) (capacity : ℕ) (setup : Setup)
        (history : L → List Moment) → IsSoundSetup setup
        → IsHonestLine L.reads L.writes echoes longest coming silent setup history
        → (first last : Port L) (found : List Record) (steps : List LiveStep) (told whole : List Entry)
        → HaveLived L.reads L.writes echoes longest coming silent capacity setup history (history (line_of first)) found whole
        → IsPortOf L.reads L.writes echoes longest coming silent first
        → IsLife capacity setup found steps (told ++ started found) → Chain (Gives L.reads L.writes) first told last
        → IsRightOver setup (entries (history (line_of last))) (told ++ whole)
        × IsPortOf L.reads L.writes echoes longest coming silent last }
{}

/// A port that was just made, whose options say whether the line echoes, and which waits for the
/// longest time, is one of any honest line. A law: its body is empty.
pub fn a_new_port_is_of_any_line<L: Line>()
    ensures { (longest : ℕ) (coming : L → List ℕ) (silent : L → ℕ) (port : Port L) → settled port ≡ false
        → silent_of port ≡ 0 → longest ≤ (options_of port).longest
        → IsPortOf L.reads L.writes (options_of port).echoes longest coming silent port }
{}

/// There is an honest line for every setup: one whose devices answer at once, where nothing is
/// damaged. So what is asked of a line can be met. A law: its body is empty.
pub fn an_honest_line_stands_for_every_setup()
    ensures { (setup : Setup) → IsHonestLine (reads_on setup) (writes_on setup) true 1 coming_on
        silent_on setup history_on }
{}
