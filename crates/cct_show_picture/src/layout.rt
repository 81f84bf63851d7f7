//! Where things stand in a picture, in pixels.

use crate::LaneKind;
use cct_model_lines::DeviceSet;

/// The rows of a page.
pub(crate) const PAGE_ROWS: usize = 200;

/// After so many rows the names of the lanes stand again, in a row of their own.
pub(crate) const NAMES_EVERY: usize = 40;

/// The height of a row. The signs, lines and captions of `shape.rt` are drawn for it.
pub(crate) const ROW_HEIGHT: u32 = 32;

/// The middle of a row, below its top.
pub(crate) const ROW_MIDDLE: u32 = 16;

/// The line of a request, below the top of its row.
pub(crate) const REQUEST_LINE: u32 = 13;

/// The line of what was heard, below the top of its row.
pub(crate) const HEARD_LINE: u32 = 27;

/// The height of what is above the first row of a page.
pub(crate) const HEAD_HEIGHT: u32 = 56;

/// The top of the names of the lanes in it.
pub(crate) const NAMES_TOP: u32 = 22;

/// Where the lanes begin in it, below their names.
pub(crate) const LANE_TOP: u32 = 48;

/// The height of what is below the last row of a page.
pub(crate) const FOOT_HEIGHT: u32 = 24;

/// The left end of a page's title.
pub(crate) const TITLE_START: u32 = 8;

/// The right end of the row numbers.
pub(crate) const NUMBERS_END: u32 = 50;

/// The left end of the times.
pub(crate) const TIMES_START: u32 = 8;

/// The left end of the bar of a power cut.
pub(crate) const BAR_START: u32 = 58;

/// The lane of the host; what is written of it stands to its left.
pub(crate) const HOST_LANE: u32 = 500;

/// From the host to the first device. The name of a header and its values stand there.
const FIRST_GAP: u32 = 390;

/// From a device to the next one.
const LANE_GAP: u32 = 200;

/// From where a lost request ends to the lane of its device.
pub(crate) const LOST_GAP: u32 = 40;

/// From the last lane to the end of an arrow to all devices.
const END_GAP: u32 = 24;

/// From the end of such an arrow to the next page. What is written of the last device is there.
const PAGE_GAP: u32 = 240;

/// The lanes of the devices, in rising order of their addresses.
#[derive(Drop)]
pub(crate) struct Lanes {
    devices: DeviceSet,
    kinds: [LaneKind; 256],
    /// Of each device the place of its lane; of address 0 the right end of all lanes.
    places: [u32; 256],
}

impl Lanes {
    /// The lanes of these devices, of these kinds.
    pub(crate) fn new(devices: DeviceSet, kinds: [LaneKind; 256]) -> Lanes {
        Lanes::at(devices, kinds, HOST_LANE + FIRST_GAP, LANE_GAP)
    }

    /// The lanes of these devices, of these kinds, with a place for the first, and so far from one
    /// to the next.
    pub(crate) fn at(devices: DeviceSet, kinds: [LaneKind; 256], first: u32, gap: u32) -> Lanes {
        let mut places = [0; 256];
        let mut next = first;
        let mut last = next;
        for addr in 1..256u16 {
            if devices.has(addr as u8) {
                places[usize::from(addr)] = next;
                last = next;
                next = next.saturating_add(gap);
            }
        }
        places[0] = last.saturating_add(END_GAP);
        Lanes {
            devices,
            kinds,
            places,
        }
    }

    /// Whether a device has a lane.
    pub(crate) fn has(&self, addr: u8) -> bool {
        self.devices.has(addr)
    }

    /// What the device of a lane is.
    pub(crate) fn kind(&self, addr: u8) -> LaneKind {
        self.kinds[usize::from(addr)]
    }

    /// The place of a device's lane, or for address 0 the right end of all lanes.
    pub(crate) fn place(&self, addr: u8) -> u32 {
        self.places[usize::from(addr)]
    }

    /// The right end of all lanes.
    pub(crate) fn end(&self) -> u32 {
        self.place(0)
    }

    /// The width of a page.
    pub(crate) fn page_width(&self) -> u32 {
        self.end().saturating_add(PAGE_GAP)
    }
}

/// The top of a row of a page, by its index.
pub(crate) fn row_top(index: usize) -> u32 {
    let index = index.min(PAGE_ROWS);
    HEAD_HEIGHT + (index + index / NAMES_EVERY) as u32 * ROW_HEIGHT
}

/// The height of so many rows of a page, with the names between them.
pub(crate) fn rows_height(count: usize) -> u32 {
    let rows = count.min(PAGE_ROWS);
    let names = rows.saturating_sub(1) / NAMES_EVERY;
    (rows + names) as u32 * ROW_HEIGHT
}
