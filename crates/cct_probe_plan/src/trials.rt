//! The trials of the table, and how they leave a device.
ghost use Rattle.std.specs.Prelude.{◌≡◌, [], ◌∷◌, true};
ghost use Rattle.cct_model_wire.specs.declared.device.DeviceBody.{DeviceBody};
ghost use Rattle.cct_model_wire.specs.Device.{is_hopper, is_taker};
ghost use Rattle.cct_probe_plan.specs.Closing.{closing};
ghost use Rattle.cct_probe_plan.specs.declared.plan.Ask.TheVariants.{One, Two};
ghost use Rattle.cct_probe_plan.specs.declared.plan.Ending.TheVariants as ending;
ghost use Rattle.cct_probe_plan.specs.declared.plan.Say.TheVariants as say;
ghost use Rattle.cct_probe_plan.specs.declared.premise.OfLine.{OfLine};
ghost use Rattle.cct_probe_plan.specs.declared.premise.Premise.{Premise};
ghost use Rattle.cct_probe_plan.specs.declared.premise.Premise.TheVariants as premise;
ghost use Rattle.cct_probe_plan.specs.Tries.{is_tried_at, tries_at, tries_on_line};

use crate::plan::Trial;
use crate::table::TRIALS;

/// The trials of the table, in their order. After each of them an acceptor of coins or of bills
/// gets mask 0, and at the end master inhibit and mask 0; a hopper is disabled.
pub fn all_trials() -> &'static [Trial]
    ensures closes_takers { (body : DeviceBody) → is_taker body ≡ true →
        closing ending.Trial body result.now ≡ say.Ask (Two 231 0 0) ∷ [] }
    ensures leaves_takers { (body : DeviceBody) → is_taker body ≡ true →
        closing ending.Run body result.now ≡ say.Ask (One 228 0) ∷ say.Ask (Two 231 0 0) ∷ [] }
    ensures closes_hoppers { (body : DeviceBody) → is_hopper body ≡ true →
        closing ending.Trial body result.now ≡ say.Ask (One 164 0) ∷ [] }
    ensures leaves_hoppers { (body : DeviceBody) → is_hopper body ≡ true →
        closing ending.Run body result.now ≡ say.Ask (One 164 0) ∷ [] }
    // For each premise that can be tried at a device, or of the line, there is a trial.
    ensures tries { (device : DeviceBody) (this : Premise) → is_tried_at device this ≡ true →
        tries_at result.now device this ≡ true }
    ensures tries_line { (this : OfLine) → tries_on_line result.now (premise.Line this) ≡ true }
{
    &TRIALS
}
