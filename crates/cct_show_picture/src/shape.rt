//! What is drawn at and between lanes, as paths and texts of SVG in a row of 32 pixels.

use crate::Verdict;
use crate::layout::{HEARD_LINE, REQUEST_LINE, ROW_MIDDLE};

/// The cross where a request or its echo got lost, from its middle on.
pub(crate) const CROSS: &[u8] = b"m-4-4l8 8m0-8l-8 8";

/// A sign at the lane of the host or of a device. Its path begins in the middle of its row.
#[derive(Clone, Copy)]
pub(crate) enum Shape {
    Accepted,
    Held,
    Inhibited,
    Alien,
    Fell,
    NoFall,
    Jammed,
    NoJam,
    Reset,
    Stacked,
    Returned,
    Counted,
    Waits,
    Taken,
    Refused,
    Put,
    Kept,
    Ended,
    Alarm,
}

impl Shape {
    /// The class of a sign.
    pub(crate) fn class(self) -> &'static [u8] {
        match self {
            Shape::Accepted => b"in",
            Shape::Held | Shape::Stacked => b"held",
            Shape::Inhibited | Shape::Alien | Shape::Returned => b"back",
            Shape::Fell => b"out",
            Shape::NoFall | Shape::NoJam => b"none",
            Shape::Jammed | Shape::Refused => b"bad",
            Shape::Reset => b"reset",
            Shape::Taken | Shape::Ended => b"job",
            Shape::Counted | Shape::Waits => b"sign",
            Shape::Put => b"put",
            Shape::Kept => b"kept",
            Shape::Alarm => b"alarm",
        }
    }

    /// What the text beside a sign at the host's lane is.
    pub(crate) fn caption(self) -> Caption {
        match self {
            Shape::Alarm => Caption::Alarm,
            _ => Caption::Host,
        }
    }

    /// The path of a sign: a dot or a square with an arrow into it or out of it, or what its name
    /// says.
    pub(crate) fn path(self) -> &'static [u8] {
        match self {
            Shape::Accepted | Shape::Inhibited => {
                b"m-5 0a5 5 0 1 0 10 0a5 5 0 1 0-10 0zm5-13v7m-3-3l3 3l3-3"
            }
            Shape::Held => b"m-8-4h16v9h-16zm8-9v7m-3-3l3 3l3-3",
            Shape::Alien => b"m-5-5h10v10h-10zm5-8v7m-3-3l3 3l3-3",
            Shape::Fell | Shape::NoFall => {
                b"m-5 0a5 5 0 1 0 10 0a5 5 0 1 0-10 0zm5 6v7m-3-3l3 3l3-3"
            }
            Shape::Jammed => b"m-5-5l10 10m0-10l-10 10",
            Shape::NoJam => b"m-3-3l6 6m0-6l-6 6",
            Shape::Reset => b"m-4-4a6 6 0 1 1 0 8m0 5v-5h5",
            Shape::Counted => b"m-7-6v12m4-12v12m4-12v12m4-12v12m-14-1l16-10",
            Shape::Waits => b"m-5-8h10l-10 16h10z",
            Shape::Taken => b"m-5-6l11 6l-11 6z",
            Shape::Refused => b"m-6 0a6 6 0 1 0 12 0a6 6 0 1 0-12 0zm2 4l8-8",
            Shape::Put | Shape::Kept => b"m-5-7h10v14h-10zm2 4h6m-6 3h6m-6 3h6",
            Shape::Ended => b"m-5-5h10v10h-10z",
            Shape::Alarm => b"m0-9l10 17h-20zm0 6v5m0 2v2",
            Shape::Stacked => b"m-8-8h16v4h-16zm0 6h16v4h-16zm0 6h16v4h-16z",
            Shape::Returned => b"m-8-4h16v9h-16zm8-2v-7m-3 3l3-3l3 3",
        }
    }
}

/// A line between two places of a row.
#[derive(Clone, Copy)]
pub(crate) enum Arrow {
    Request,
    Lost,
    Answer,
    Refusal,
    Other,
    Silence,
    Damage,
    Fault,
    Cleared,
    Crash,
}

impl Arrow {
    /// The class of a line.
    pub(crate) fn class(self) -> &'static [u8] {
        match self {
            Arrow::Request => b"ask",
            Arrow::Lost => b"lost",
            Arrow::Answer => b"answer",
            Arrow::Refusal => b"refusal",
            Arrow::Other => b"other",
            Arrow::Silence => b"silence",
            Arrow::Damage => b"damage",
            Arrow::Fault => b"fault",
            Arrow::Cleared => b"cleared",
            Arrow::Crash => b"crash",
        }
    }

    /// How far below the top of its row a line is drawn.
    pub(crate) fn height(self) -> u32 {
        match self {
            Arrow::Request | Arrow::Lost => REQUEST_LINE,
            Arrow::Crash => ROW_MIDDLE,
            Arrow::Answer
            | Arrow::Refusal
            | Arrow::Other
            | Arrow::Silence
            | Arrow::Damage
            | Arrow::Fault
            | Arrow::Cleared => HEARD_LINE,
        }
    }

    /// The path of the head of a line, from its end on.
    pub(crate) fn head(self) -> &'static [u8] {
        match self {
            Arrow::Request => b"m-7-3l7 3l-7 3",
            Arrow::Answer | Arrow::Refusal | Arrow::Other | Arrow::Damage => b"m7-3l-7 3l7 3",
            Arrow::Lost | Arrow::Silence | Arrow::Fault | Arrow::Cleared | Arrow::Crash => b"",
        }
    }
}

/// What a text is.
#[derive(Clone, Copy)]
pub(crate) enum Caption {
    /// The number of a row.
    Number,
    /// The time of a row.
    Time,
    /// At the left of the host's lane.
    Host,
    /// The same of what somebody is to look at.
    Alarm,
    /// A line that is none of the others.
    Note,
    /// Above the arrow of a request.
    Request,
    /// Above the arrow of what was heard.
    Heard,
    /// At the right of a device's lane.
    Device,
    /// Within the bar of a power cut.
    Crash,
    /// The name of a lane.
    Name,
    /// What a page is, at its top.
    Title,
    /// How many lines are left out, at the top of the first page.
    LeftOut,
}

/// The class of the bar of what a monitor says.
pub(crate) fn bar_class(verdict: Verdict) -> &'static [u8] {
    match verdict {
        Verdict::Sure => b"sure",
        Verdict::Quiet => b"quiet",
        Verdict::Doubt => b"doubt",
        Verdict::Fell => b"fallen",
    }
}

impl Caption {
    /// The attributes of a text, all but its place in the row.
    pub(crate) fn attributes(self) -> &'static [u8] {
        match self {
            Caption::Number => b"class=\"number\" y=\"18\"",
            Caption::Time => b"class=\"time\" y=\"29\"",
            Caption::Host => b"class=\"host\" y=\"20\" dx=\"-14\"",
            Caption::Alarm => b"class=\"look\" y=\"20\" dx=\"-14\"",
            Caption::Note => b"class=\"note\" y=\"20\" dx=\"-14\"",
            Caption::Request => b"y=\"10\" dx=\"10\"",
            Caption::Heard => b"y=\"24\" dx=\"12\"",
            Caption::Device => b"y=\"20\" dx=\"14\"",
            Caption::Crash => b"class=\"crashed\" y=\"20\" dx=\"-14\"",
            Caption::Name => b"class=\"name\" y=\"20\"",
            Caption::Title => b"class=\"title\" y=\"16\"",
            Caption::LeftOut => b"class=\"title\" y=\"34\"",
        }
    }
}
