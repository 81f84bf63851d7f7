//! What follows from the clauses of a port, whatever its line does.
ghost use Rattle.cct_live_port.specs.Silence.{EachSendFollowsSilence};

use crate::Line;

/// Between the last byte that came or was sent and the next send of a port lie at least `longest`
/// silent reads in a row, unless the last exchange was answered; then at least `gap`. So it is over
/// all that is done with a port since it was made: the silent reads in which an answer was waited
/// for count, and none is counted that was made before a byte or a failure. A law: its body is
/// empty.
pub fn each_send_follows_silence<L: Line>()
    ensures { EachSendFollowsSilence L.reads L.writes }
{}
