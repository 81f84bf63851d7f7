//! What holds of the failed tries of every row of a job.
ghost use Rattle.std.specs.Prelude.{◌≡◌, ◌≢◌, ◌↔◌, List, ℕ, suc, Option, ◌∷◌, Bool, false, Some};
ghost use Rattle.std.specs.Prelude.{None};
ghost use Rattle.cct_model.specs.lines.command.Command.{Command};
ghost use Rattle.cct_model.specs.terms.device.DeviceSetup.{DeviceSetup};
ghost use Rattle.cct_model.specs.lines.entry.End.TheVariants.{NoAnswer, StartUnsure};
ghost use Rattle.cct_model.specs.declared.judging.EpochState.{EpochState};
ghost use Rattle.cct_model.specs.declared.judging.OpenOrder.{OpenOrder};
ghost use Rattle.cct_model.specs.terms.request.Request.{Request};
ghost use Rattle.cct_model.specs.terms.request.Request.TheVariants.{SetMask};
ghost use Rattle.cct_model.specs.Job.{sends, tries};
ghost use Rattle.cct_model.specs.Rows.{row, end_of, left, sent_once};
ghost use Rattle.cct_model.specs.Line.{Line, exchange};
ghost use Rattle.cct_model.specs.Reply.{Reply};
ghost use Rattle.cct_model.specs.Request.{header_of};

use cct_model::Request;

/// A job at a device ends with [`End::NoAnswer`](cct_model::End) at the third failed try in
/// succession of one row, and at no other exchange: each failed try of a row counts, and a wanted
/// reply or an exchange of another row begins the count anew. A row that is sent once alone is
/// apart: a mask that isn't acknowledged ends its start unsure.
#[tactic(auto, using(crate::proofs::Tries::third_ends, crate::proofs::Tries::answer_goes_on, crate::proofs::Tries::other_clears, cct_model::proofs::Tries::tried))]
pub fn no_answer_comes_at_the_third_failed_try()
    // at which failed try a job ends
    ensures third { (d : DeviceSetup) (c : Command) (q : Request) (since : List Line) (state : EpochState)
        → sent_once (left d c since state) ≡ false → (end_of d c (exchange (Some q) None) since state ≡ Some NoAnswer) ↔ (tries (header_of q) since ≡ 2) }
    ensures once { (d : DeviceSetup) (c : Command) (mask : ℕ) (since : List Line) (state : EpochState) (owed : Option OpenOrder)
        → row d c since state owed ≡ sends (SetMask mask) → end_of d c (exchange (Some (SetMask mask)) None) since state ≡ Some StartUnsure }
    ensures answered { (d : DeviceSetup) (c : Command) (q : Request) (y : Reply) (since : List Line) (state : EpochState)
        → end_of d c (exchange (Some q) (Some y)) since state ≢ Some NoAnswer }

    // which tries count
    ensures counts { (q : Request) (since : List Line)
        → tries (header_of q) (exchange (Some q) None ∷ since) ≡ suc (tries (header_of q) since) }
    ensures reply_clears { (q : Request) (header : ℕ) (y : Reply) (since : List Line)
        → tries header (exchange (Some q) (Some y) ∷ since) ≡ 0 }
    ensures other_clears { (q : Request) (header : ℕ) (since : List Line) → header_of q ≢ header
        → tries header (exchange (Some q) None ∷ since) ≡ 0 }
{}
