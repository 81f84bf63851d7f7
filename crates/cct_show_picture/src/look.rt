//! How the paths of a picture look.

/// How the paths of a class look. Nothing is reported by a colour alone.
#[derive(Clone, Copy)]
pub(crate) struct Look {
    pub(crate) class: &'static [u8],
    pub(crate) style: &'static [u8],
}

/// All of them.
pub(crate) const LOOKS: [Look; 27] = [
    Look {
        class: b"lane",
        style: b"stroke:#ccc",
    },
    Look {
        class: b"ask",
        style: b"stroke:#047",
    },
    Look {
        class: b"answer",
        style: b"stroke:#047",
    },
    Look {
        class: b"refusal",
        style: b"stroke:#b50",
    },
    Look {
        class: b"other",
        style: b"stroke:#83a;stroke-dasharray:12 3",
    },
    Look {
        class: b"silence",
        style: b"stroke:#666;stroke-dasharray:1 4",
    },
    Look {
        class: b"cleared",
        style: b"stroke:#666;stroke-dasharray:1 4",
    },
    Look {
        class: b"damage",
        style: b"stroke:#c00;stroke-dasharray:6 3",
    },
    Look {
        class: b"fault",
        style: b"stroke:#c00;stroke-dasharray:6 3",
    },
    Look {
        class: b"lost",
        style: b"stroke:#c00;stroke-dasharray:6 3",
    },
    Look {
        class: b"crash",
        style: b"stroke:#333;stroke-width:20",
    },
    Look {
        class: b"in",
        style: b"fill:#283;stroke:#283",
    },
    Look {
        class: b"held",
        style: b"fill:#cec;stroke:#283",
    },
    Look {
        class: b"out",
        style: b"fill:#d70;stroke:#d70",
    },
    Look {
        class: b"back",
        style: b"stroke:#283;fill:#fff",
    },
    Look {
        class: b"none",
        style: b"stroke:#888;fill:#fff",
    },
    Look {
        class: b"bad",
        style: b"stroke:#c00;stroke-width:2",
    },
    Look {
        class: b"reset",
        style: b"stroke:#80a;stroke-width:2",
    },
    Look {
        class: b"job",
        style: b"fill:#000",
    },
    Look {
        class: b"alarm",
        style: b"fill:#fd6;stroke:#c00;stroke-width:1.6",
    },
    Look {
        class: b"put",
        style: b"fill:#cdf;stroke:#036",
    },
    Look {
        class: b"kept",
        style: b"fill:#fff;stroke:#036;stroke-dasharray:2 1",
    },
    Look {
        class: b"sign",
        style: b"stroke:#036",
    },
    Look {
        class: b"sure",
        style: b"stroke:#7c9;stroke-width:12",
    },
    Look {
        class: b"quiet",
        style: b"stroke:#7c9;stroke-dasharray:8 2;stroke-width:12",
    },
    Look {
        class: b"doubt",
        style: b"stroke:#fd6;stroke-dasharray:3 2;stroke-width:12",
    },
    Look {
        class: b"fallen",
        style: b"stroke:#fb7;stroke-width:12",
    },
];
