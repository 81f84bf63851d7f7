//! What is promised of the money of a service whose link is a port over an honest line.
#![tactic(auto)]

ghost use Rattle.std.specs.Prelude.{◌≡◌, ◌⊎◌, ◌++◌, ℕ, Bool, List, [], Option};
ghost use Rattle.cct_journal.specs.declared.format.TheConstants.{MOST_RECORDS};
ghost use Rattle.cct_model.specs.terms.device.Setup.{Setup};
ghost use Rattle.cct_model.specs.lines.command.CrashAt.{CrashAt};
ghost use Rattle.cct_model.specs.lines.entry.Entry.{Entry};
ghost use Rattle.cct_model.specs.lines.record.Record.{Record};
ghost use Rattle.cct_model.specs.Change.{Desk, clear_desk};
ghost use Rattle.cct_model.specs.Legal.{EntriesOfRestart};
ghost use Rattle.cct_model.specs.Records.{records};
ghost use Rattle.cct_model.specs.Script.{IsCrash};
ghost use Rattle.cct_model.specs.Setup.{IsSoundSetup};
ghost use Rattle.cct_live_port.specs.declared.port.Port.{Port};
ghost use Rattle.cct_live_port.specs.Port.{Gives, faults_of, line_of, was_sent};
ghost use Rattle.cct_live_survey.specs.Asking.{Inquires};
ghost use Rattle.cct_live_survey.specs.Roll.{Rolled};
ghost use Rattle.cct_laws_live_devices.specs.Chain.{Chain};
ghost use Rattle.cct_laws_live_devices.specs.Asked.{Moment, entries};
ghost use Rattle.cct_laws_live_devices.specs.Lives.{HaveLived, IsHonestLine, IsPortOf, IsRightOver};
ghost use Rattle.cct_live_service.specs.declared.served.Served.{Served};
ghost use Rattle.cct_live_service.specs.declared.stopping.AtEnd.{AtEnd};
ghost use Rattle.cct_live_service.specs.declared.watch.Watch.{Watch};
ghost use Rattle.cct_live_service.specs.Found.{FoundOn, Tells, was_found};
ghost use Rattle.cct_live_service.specs.Since.{IsMaking};
ghost use Rattle.cct_laws_live.specs.Live.{started};
ghost use Rattle.cct_laws_live_service.specs.Killed.{IsLeftAt, Point};
ghost use Rattle.cct_laws_live_service.specs.Sessions.{TellsRight};
ghost use Rattle.cct_laws_live_service.specs.Starts.{StartsOver};
ghost use Rattle.cct_disk.specs.Disk.{Holds, IsTrusted};
ghost use Rattle.cct_live_service.specs.Hears.{HearsMore};
ghost use Rattle.cct_live_service.specs.Lived.{Lived};
ghost use Rattle.cct_live_service.specs.Told.{news_of};

use cct_disk::Disk;
use cct_edge::Sink;
use cct_live_port::Line;
use cct_live_service::Outside;
use cct_wire::Link;

/// Where a service lived over a port of an honest line, no coin is posted twice or lost in silence,
/// and no order is paid twice, in all that it and those before it reported. The next one may start
/// over what it left, and the same is promised of that. A law: its body is empty.
pub fn a_service_over_an_honest_line_is_right<L: Line, K: Sink, D: Disk, O: Outside>()
    ensures { (echoes : Bool) (longest : ℕ) (coming : L → List ℕ) (silent : L → ℕ) (setup : Setup)
        (history : L → List Moment) → IsSoundSetup setup → IsHonestLine L.reads L.writes echoes longest coming silent setup history
        → (first last : Port L) (watch watch_then : Watch) (roll now : Rolled) (desk left_desk : Desk) (missed missed_then : ℕ) (around around_then : O) (ends : AtEnd) (left : Option (List ℕ)) (how : Served) (old new : K)
        (given back : D)
        → (service : Lived K.written K.puts (Gives L.reads L.writes) was_sent faults_of D.size D.honest D.seen D.may_leave
        D.moment D.left_since D.cuts given back setup roll now desk left_desk missed missed_then (HearsMore O.heard around around_then) ends left how old new
        (record { link = first; watch = watch }) (record { link = last; watch = watch_then }))
        → (found : List Record) (whole : List Entry) → FoundOn D.honest D.seen D.may_leave given setup service.begun found
        → HaveLived L.reads L.writes echoes longest coming silent MOST_RECORDS setup history (history (line_of first)) found whole
        → IsPortOf L.reads L.writes echoes longest coming silent first
        → IsRightOver setup (entries (history (line_of last))) (news_of service.told ++ whole)
        × IsPortOf L.reads L.writes echoes longest coming silent last
        × ((at : Option CrashAt) (news : List Entry) → IsCrash at
        → EntriesOfRestart setup (news_of service.told ++ whole) at news
        → HaveLived L.reads L.writes echoes longest coming silent MOST_RECORDS setup history (history (line_of last))
        (records (news ++ (news_of service.told ++ whole))) (news ++ (news_of service.told ++ whole))) }
{}

/// Where the money of what such a service reported is right over what fell, so is what it reported
/// of sessions of change, if no session ran when it began: the coins that fell for the orders of a
/// session are worth its amount where it was served, and what is reported as paid where it falls
/// short, and they are never worth more than its amount. They are all coins that fell up to the end
/// of the service. A law: its body is empty.
pub fn a_session_on_an_honest_line_pays_what_it_tells<L: Line, K: Sink, D: Disk, O: Outside>()
    ensures { (setup : Setup) → IsSoundSetup setup → (first last : Port L) (watch watch_then : Watch) (roll now : Rolled) (left_desk : Desk) (missed missed_then : ℕ) (around around_then : O) (ends : AtEnd)
        (left : Option (List ℕ)) (how : Served) (old new : K) (given back : D)
        → (service : Lived K.written K.puts (Gives L.reads L.writes) was_sent faults_of D.size D.honest D.seen D.may_leave
        D.moment D.left_since D.cuts given back setup roll now (clear_desk setup) left_desk missed missed_then (HearsMore O.heard around around_then) ends left how old new
        (record { link = first; watch = watch }) (record { link = last; watch = watch_then }))
        → (fallen whole : List Entry) (right : IsRightOver setup fallen (news_of service.told ++ whole))
        → TellsRight setup right.world (clear_desk setup) [] service.told }
{}

/// What a power cut leaves on the disk of such a service, or what is there without one, shows the
/// records over which the next life starts: those that were put, or these and the one that was due.
/// A disk that holds it shows them to the next service. A law: its body is empty.
pub fn the_next_service_starts_over_what_is_left<L: Line, K: Sink, D: Disk, O: Outside>()
    ensures { (echoes : Bool) (longest : ℕ) (coming : L → List ℕ) (silent : L → ℕ) (setup : Setup)
        (history : L → List Moment) → IsSoundSetup setup
        → IsHonestLine L.reads L.writes echoes longest coming silent setup history
        → (first last : Port L) (watch watch_then : Watch) (roll now : Rolled) (desk left_desk : Desk) (missed missed_then : ℕ) (around around_then : O) (ends : AtEnd) (left : Option (List ℕ)) (how : Served) (old new : K)
        (given back : D)
        → (service : Lived K.written K.puts (Gives L.reads L.writes) was_sent faults_of D.size D.honest D.seen D.may_leave
        D.moment D.left_since D.cuts given back setup roll now desk left_desk missed missed_then (HearsMore O.heard around around_then) ends left how old new
        (record { link = first; watch = watch }) (record { link = last; watch = watch_then }))
        → (found : List Record) (whole : List Entry) → FoundOn D.honest D.seen D.may_leave given setup service.begun found
        → HaveLived L.reads L.writes echoes longest coming silent MOST_RECORDS setup history (history (line_of first)) found
        whole
        → IsPortOf L.reads L.writes echoes longest coming silent first → IsTrusted D.honest D.seen back
        → (image : List ℕ) → D.may_leave back image
        → (starts : StartsOver setup (λ rs all. HaveLived L.reads L.writes echoes longest coming silent MOST_RECORDS setup
        history (history (line_of last)) rs all) (news_of service.told ++ whole) image)
        × ((next : D) → Holds D.honest D.seen D.may_leave next image
        → Tells D.honest D.seen D.may_leave next setup starts.left) }
{}

/// A service may be killed at each moment. At each point between two of its steps what it reported
/// by then is a life, with the money right, and what may be left on the disk by then shows the
/// records over which the next life starts, as above. And whatever a power cut at a moment of the
/// service might have left, if its disk held one image alone, is what may be left at one of these
/// points, or a journal that is just being made. A law: its body is empty.
pub fn a_service_may_be_killed_at_each_moment<L: Line, K: Sink, D: Disk, O: Outside>()
    ensures { (echoes : Bool) (longest : ℕ) (coming : L → List ℕ) (silent : L → ℕ) (setup : Setup)
        (history : L → List Moment) → IsSoundSetup setup
        → IsHonestLine L.reads L.writes echoes longest coming silent setup history
        → (first last : Port L) (watch watch_then : Watch) (roll now : Rolled) (desk left_desk : Desk) (missed missed_then : ℕ) (around around_then : O) (ends : AtEnd) (left : Option (List ℕ)) (how : Served) (old new : K)
        (given back : D)
        → (service : Lived K.written K.puts (Gives L.reads L.writes) was_sent faults_of D.size D.honest D.seen D.may_leave
        D.moment D.left_since D.cuts given back setup roll now desk left_desk missed missed_then (HearsMore O.heard around around_then) ends left how old new
        (record { link = first; watch = watch }) (record { link = last; watch = watch_then }))
        → (found : List Record) (whole : List Entry) → FoundOn D.honest D.seen D.may_leave given setup service.begun found
        → HaveLived L.reads L.writes echoes longest coming silent MOST_RECORDS setup history (history (line_of first)) found
        whole
        → IsPortOf L.reads L.writes echoes longest coming silent first
        → ((point : Point (Gives L.reads L.writes) setup found first last (news_of service.told))
        → IsRightOver setup (entries (history (line_of point.line))) (point.news ++ whole)
        × IsPortOf L.reads L.writes echoes longest coming silent point.line
        × ((image : List ℕ) → IsLeftAt setup (point.news ++ started found) image
        → (starts : StartsOver setup (λ rs all. HaveLived L.reads L.writes echoes longest coming silent MOST_RECORDS setup
        history (history (line_of point.line)) rs all) (point.news ++ whole) image)
        × ((next : D) → Holds D.honest D.seen D.may_leave next image
        → Tells D.honest D.seen D.may_leave next setup starts.left)))
        × ((before image : List ℕ) → Holds D.honest D.seen D.may_leave given before
        → D.left_since back (D.moment given) image
        → IsMaking (was_found service.begun) before image
        ⊎ ((point : Point (Gives L.reads L.writes) setup found first last (news_of service.told))
        × IsLeftAt setup (point.news ++ started found) image)) }
{}

/// The questions of a survey ask no device more than who it is, and which coins it knows, or what
/// the model's devices don't know. So a host may start after one: it is a chain of which nothing is
/// reported.
pub fn a_survey_is_a_chain<L: Link>()
    ensures { (first last : L) → Inquires L.gives first last → Chain L.gives first [] last }
{}
