//! What a host takes for granted of the past holds of every legal one.
ghost use Rattle.std.specs.Prelude.{[], ℕ, Option};
ghost use Rattle.cct_model.specs.lines.command.CrashAt.{CrashAt};
ghost use Rattle.cct_model.specs.Transcript.{onto};
ghost use Rattle.cct_laws.specs.Restart.{RestartSuits};
ghost use Rattle.cct_laws.specs.Scope.{EachTranscript};
ghost use Rattle.cct_host.specs.Host.{PutSuits};

/// Every legal past suits a host, whatever the wire does. What the job at an address is about to
/// put closes no order of another address, it is allowed beside what the other jobs reserve,
/// and it follows the records. So [`Host::next`](crate::Host::next) goes on by it. And the records
/// follow one another, with the one whose put a power cut interrupts, so
/// [`Host::restart`](crate::Host::restart) starts again over them. It doesn't say that a job ever
/// comes to its put, nor that a hopper paid what a record says.
pub fn each_legal_past_suits_a_host()
    ensures puts { EachTranscript (λ capacity setup transcript. (addr : ℕ)
        → PutSuits setup (onto [] transcript) addr) }
    ensures restarts { EachTranscript (λ capacity setup transcript. (at : Option CrashAt)
        → RestartSuits setup (onto [] transcript) at) }
{}
