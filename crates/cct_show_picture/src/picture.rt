//! A picture, from its marks.
ghost use Rattle.std.specs.Prelude.{◌≤◌, vec_len};
ghost use Rattle.cct_show_picture.specs.declared.picture.TheConstants.{MOST_ROWS};

use crate::layout::{FOOT_HEIGHT, HEAD_HEIGHT, Lanes, PAGE_ROWS, rows_height};
use crate::page::{PageNumber, begin_picture, draw_left_out, draw_page};
use crate::row::{Row, Scene};
use crate::worth::Worths;
use crate::{LaneKind, Mark, Place};
use cct_edge::{Failed, Sink};
use cct_model_lines::DeviceSet;
use cct_show_pen::Pen;
use std::alloc::{AllocError, Global};

/// The most rows that a picture draws.
pub const MOST_ROWS: usize = 1_000_000;

/// A sequence picture. Its memory grows with its rows.
#[derive(Drop)]
pub struct Picture {
    pub(crate) rows: Vec<Row>,
    pub(crate) devices: DeviceSet,
    pub(crate) kinds: [LaneKind; 256],
    pub(crate) worths: Worths,
    pub(crate) has_taps: bool,
    left_out: u64,
    ghost few: { vec_len rows ≤ MOST_ROWS },
}

impl Picture {
    /// A picture without a mark.
    pub fn new(alloc: Global) -> Picture {
        Picture {
            rows: Vec::new(alloc),
            devices: DeviceSet::new(),
            kinds: [LaneKind::Unknown; 256],
            worths: Worths::new(alloc),
            has_taps: false,
            left_out: 0,
        }
    }

    /// Adds the mark of the lines from a place to the line `last`, as the next row. An exchange
    /// with the same bytes as the last row's has no row of its own: that row says how many there
    /// are. After `MOST_ROWS` rows a mark isn't kept but counted, and the picture says how many it
    /// leaves out. The error comes where there is no memory for it.
    pub fn add(&mut self, place: Place, last: u64, mark: Mark) -> Result<(), AllocError> {
        if self.is_like_last(&mark) {
            self.add_equal(last);
            return Ok(());
        }
        if self.rows.len() >= MOST_ROWS {
            self.left_out = self.left_out.saturating_add(1);
            return Ok(());
        }
        let device = mark.device();
        self.has_taps |= place.tap.is_some();
        self.rows.push(Row {
            mark,
            place,
            last,
            times: 1,
        })?;
        if let Some((addr, kind)) = device {
            self.devices.insert(addr);
            self.learn(addr, kind);
        }
        Ok(())
    }

    /// Adds one more mark, up to the line `last`, that is equal to the last one: it has no row of
    /// its own, and that row says how many there are.
    pub fn add_equal(&mut self, last: u64) {
        if self.left_out > 0 {
            self.left_out = self.left_out.saturating_add(1);
        } else if let Some(row) = self.rows.last_mut() {
            row.times = row.times.saturating_add(1);
            row.last = last;
        }
    }

    /// Whether a mark is of an exchange with the same bytes as that of the last row.
    fn is_like_last(&self, mark: &Mark) -> bool {
        match self.rows.last() {
            Some(row) => self.left_out == 0 && row.mark.is_same_exchange(mark),
            None => false,
        }
    }

    /// How many rows there are.
    pub fn row_count(&self) -> usize {
        self.rows.len()
    }

    /// Learns what the device at an address is, where that is known.
    pub fn learn(&mut self, addr: u8, kind: LaneKind) {
        self.kinds[usize::from(addr)].learn(kind);
    }

    /// Learns what a coin or a bill of a place of an acceptor is worth. The error comes where there
    /// is no memory for it.
    pub fn learn_worth(&mut self, addr: u8, place: u8, amount: u32) -> Result<(), AllocError> {
        self.worths.learn(addr, place, amount)
    }

    /// Writes the picture as an SVG document, a put for each row. A failed put ends it.
    pub fn write<K: Sink>(&self, out: &mut K) -> Result<(), Failed> {
        let mut pen = Pen::new(out);
        self.draw(&mut pen);
        pen.finish()
    }

    /// Draws the picture as an SVG document.
    fn draw<K: Sink>(&self, pen: &mut Pen<'_, K>) {
        let lanes = Lanes::new(self.devices, self.kinds);
        let count = self.rows.len().div_ceil(PAGE_ROWS).max(1) as u32;
        let height = HEAD_HEIGHT
            .saturating_add(rows_height(self.rows.len()))
            .saturating_add(FOOT_HEIGHT);
        begin_picture(pen, count.saturating_mul(lanes.page_width()), height);
        let scene = Scene {
            lanes: &lanes,
            worths: &self.worths,
            has_taps: self.has_taps,
        };
        self.draw_pages(pen, &scene, count);
        if self.left_out > 0 {
            draw_left_out(pen, self.left_out);
        }
        pen.push(b"</svg>\n");
    }

    /// Draws so many pages of rows.
    fn draw_pages<K: Sink>(&self, pen: &mut Pen<'_, K>, scene: &Scene<'_>, count: u32) {
        let mut rest = self.rows.as_slice();
        for index in 0..count {
            if !pen.is_good() {
                break;
            }
            let (part, after) = rest.split_at(rest.len().min(PAGE_ROWS));
            draw_page(pen, scene, PageNumber { index, count }, part, &self.rows);
            rest = after;
        }
    }
}
