//! What follows from what a bench does, whatever its line and its sink do.
ghost use Rattle.std.specs.Prelude.{List};
ghost use Rattle.cct_model_wire.specs.declared.device.Setup.{Setup};
ghost use Rattle.cct_probe_plan.specs.declared.plan.Trial.{Trial};
ghost use Rattle.cct_probe_run.specs.Plays.{OrdersWithinLeave};

use cct_edge::Sink;
use cct_live_port::Line;

/// Never more coins than the leave are ordered in all, and without leave no dispense is sent. A
/// law: its body is empty.
pub fn coins_are_ordered_within_leave<L: Line, K: Sink>()
    ensures { (setup : Setup) (trials : List Trial) →
        OrdersWithinLeave L.reads L.writes K.puts setup trials }
{}
