//! Whoever plays a load gets the same transcript, as far as it is played.
ghost use Rattle.std.specs.Prelude.{◌≡◌, ◌⊎◌, ℕ, List, ◌++◌};
ghost use Rattle.cct_model.specs.lines.command.Step.{Step};
ghost use Rattle.cct_model.specs.lines.entry.Entry.{Entry};
ghost use Rattle.cct_model.specs.AtDesk.{LegalAtDesk};
ghost use Rattle.cct_laws.specs.Law.{Begins};
ghost use Rattle.cct_gen.specs.Load.{load_setup, load_steps};

/// Two legal transcripts of one load, over journals of the same capacity, are equal as far as both
/// go: one begins the other. For no power cut that is drawn names a put. It doesn't say that a load
/// is played to its end.
pub fn a_load_tells_its_transcript()
    ensures { (capacity seed rounds : ℕ) (played unplayed others more : List Step) (first second : List Entry)
        → load_steps seed rounds ≡ played ++ unplayed → load_steps seed rounds ≡ others ++ more
        → LegalAtDesk capacity load_setup played first → LegalAtDesk capacity load_setup others second
        → Begins first second ⊎ Begins second first }
{}
