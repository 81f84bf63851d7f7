//! How what proofreading finds stands to a run of the script.
ghost use Rattle.std.specs.Prelude.{◌≡◌, ℕ, List};
ghost use Rattle.cct_model_lines.specs.Script.{script};
ghost use Rattle.cct_script_check.specs.Proof.{first_of, refusals};

/// The first line that is reported is the one at which a run of the script ends; and none is
/// reported exactly where a run refuses none.
#[tactic(auto, using(crate::proofs::First::first_refused))]
pub fn the_first_refusal_ends_a_run()
    ensures { (bytes : List ℕ) → first_of (refusals bytes) ≡ (script bytes).refused }
{}
