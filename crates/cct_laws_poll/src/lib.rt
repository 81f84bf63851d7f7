//! What is promised of a program that does what a host asks for that calls nothing.
#![tactic(auto)]

ghost use Rattle.std.specs.Prelude.{◌≡◌, ℕ, List, [], reverse};
ghost use Rattle.cct_model.specs.lines.entry.Entry.{Entry};
ghost use Rattle.cct_model.specs.lines.record.Record.{Record};
ghost use Rattle.cct_model.specs.Setup.{IsSoundSetup};
ghost use Rattle.cct_model.specs.Transcript.{onto};
ghost use Rattle.cct_journal.specs.declared.format.TheConstants.{MOST_RECORDS};
ghost use Rattle.cct_model.specs.Records.{records};
ghost use Rattle.cct_host.specs.Attempt.{put_of};
ghost use Rattle.cct_host.specs.Host.{StandsFor, disk_of, setup_of};
ghost use Rattle.cct_host.specs.OnDisk.{StandsUpTo};
ghost use Rattle.cct_laws_live.specs.LiveStep.{LiveStep};
ghost use Rattle.cct_laws_live.specs.Life.{IsLife};
ghost use Rattle.cct_laws_live.specs.Live.{started};
ghost use Rattle.cct_poll.specs.declared.poll.Poll.{Poll};
ghost use Rattle.cct_poll.specs.Starts.{HeldRecords, Starts};
ghost use Rattle.cct_poll.specs.Steps.{Steps};
ghost use Rattle.cct_disk_queue.specs.Calls.{Act, Since};
ghost use Rattle.cct_laws_poll.specs.Parts.{KeepsPast, MayHave, RunsOn};
ghost use Rattle.cct_laws_poll.specs.Runs.{Deed, LivesOn, Runs};

/// A host that was started over a part begins a life over the records that the part held, and
/// represents its past. A law: its body is empty.
pub fn a_start_begins_a_life()
    ensures { (poll : Poll) (part : List ℕ) (starts : Starts (setup_of poll.host) part poll.host) (found : List Record)
        → HeldRecords (setup_of poll.host) part starts.begun found
        → IsLife MOST_RECORDS (setup_of poll.host) found [] (started found) × StandsFor poll.host (started found) }
{}

/// What is reported while a program gives commands, says what it heard, and makes the calls on its
/// part, is what a live host reports in some steps, whatever is heard: so all that `cct_laws_live`
/// says of one life holds of it. A law: its body is empty.
pub fn a_run_is_a_life()
    ensures { (found : List Record) (deeds : List Deed) (steps : List LiveStep) (past : List Entry) (before after : Poll)
        (told : List Entry) → IsSoundSetup (setup_of before.host)
        → IsLife MOST_RECORDS (setup_of before.host) found steps past → StandsFor before.host past
        → Runs deeds before.host after.host told → LivesOn (setup_of before.host) found steps past after.host told }
{}

/// After a step each image that a part might have had while the calls that it notes were made, in
/// their order, represents the records of the past, or these and the one that the step puts.
/// `make_calls` of `cct_disk_queue` says that a part has no other (`Since`). A law: its body is
/// empty.
pub fn a_part_keeps_the_records()
    ensures { (before after : Poll) (piece heard : List ℕ) (addr : ℕ) (told past : List Entry)
        (step : Steps piece heard addr before.host after.host told) → (disk_of before.host).calls ≡ []
        → StandsFor before.host past → (image : List ℕ)
        → Since (disk_of after.host).base (disk_of after.host).calls 0 image
        → StandsUpTo (setup_of before.host) (put_of step.what) (reverse (records past)) image }
{}

/// From a host on whose part no call is left to be made, however long a program then does what it
/// asks for: whatever a power cut leaves of the part, between two calls or in one, represents the
/// records of all that was reported; or, while the calls of a put are made, all but that one. A law:
/// its body is empty.
pub fn a_run_keeps_its_part()
    ensures { (found : List Record) (deeds : List Deed) (steps : List LiveStep) (past : List Entry) (before after : Poll)
        (told : List Entry) (calls : List Act) → IsSoundSetup (setup_of before.host)
        → IsLife MOST_RECORDS (setup_of before.host) found steps past → StandsFor before.host past
        → (disk_of before.host).calls ≡ [] → RunsOn deeds before after told calls → (image : List ℕ)
        → MayHave (disk_of before.host).base calls after image
        → KeepsPast (setup_of before.host) after (onto past told) image }
{}
