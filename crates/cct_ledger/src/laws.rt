//! What a ledger takes and gives, by the definitions of records and of money.
ghost use Rattle.std.specs.Prelude.{◌≡◌, ℕ, true, List, length};
ghost use Rattle.cct_model.specs.terms.device.Setup.{Setup};
ghost use Rattle.cct_model.specs.lines.record.Record.{Record};
ghost use Rattle.cct_model.specs.lines.entry.Entry.{Entry};
ghost use Rattle.cct_model.specs.Carry.{carry};
ghost use Rattle.cct_model.specs.Following.{all_follow, follows, is_allowed};
ghost use Rattle.cct_model.specs.Money.{available, available_beside, reserved_at_work, totals};
ghost use Rattle.cct_model.specs.Records.{records};
ghost use Rattle.cct_model.specs.Setup.{IsSoundSetup};
ghost use Rattle.cct_ledger.specs.Ledger.{StandsFor};
ghost use Rattle.cct_ledger.specs.Resumed.{IsResumed};
ghost use Rattle.cct_ledger.specs.Told.{totals_beside, is_of_money};
ghost use Rattle.cct_ledger.specs.declared.ledger.Ledger.{Ledger};

/// Where nothing is reserved beside the records, a ledger takes a record of an order or of a sale
/// exactly where it follows those before it; and whatever is reserved, only where it does.
#[tactic(auto, using(crate::proofs::Following::allowed_alone, crate::proofs::Following::allowed_follows))]
pub fn a_ledger_takes_what_follows()
    ensures alone { (setup : Setup) (before : List Record) (r : Record) → is_of_money r ≡ true
        → is_allowed setup before 0 r ≡ follows setup before r }
    ensures only { (setup : Setup) (before : List Record) (beside : ℕ) (r : Record) → is_of_money r ≡ true
        → is_allowed setup before beside r ≡ true → follows setup before r ≡ true }
{}

/// With what all running jobs reserve beside the records, what a ledger gives is what the operator
/// has after these entries.
pub fn a_ledger_tells_what_the_operator_has()
    ensures available { (setup : Setup) (past : List Entry)
        → available_beside setup (records past) (reserved_at_work setup past) ≡ available setup past }
    ensures totals { (setup : Setup) (past : List Entry)
        → totals_beside setup (records past) (reserved_at_work setup past) ≡ totals setup past }
{}

/// A ledger that begins with the carry of records that follow one another represents these records,
/// and nothing is reserved beside them.
pub fn a_ledger_begins_where_its_records_end()
    ensures { (setup : Setup) (before : List Record) (ledger : Ledger) → IsSoundSetup setup
        → all_follow setup before ≡ true → IsResumed setup (length before) (carry setup before) ledger
        → StandsFor ledger before 0 }
{}
