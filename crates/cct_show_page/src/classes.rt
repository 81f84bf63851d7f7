//! The classes of an element.

use cct_edge::Sink;
use cct_show_pen::Pen;

/// The classes of an element while they are written. Quotes stand around several.
#[derive(Clone, Copy)]
pub(crate) struct Classes {
    are_several: bool,
    has_any: bool,
}

impl Classes {
    /// No class yet of so many.
    pub(crate) fn new(count: usize) -> Classes {
        Classes {
            are_several: count > 1,
            has_any: false,
        }
    }

    /// Writes what is before a class.
    fn next<K: Sink>(&mut self, pen: &mut Pen<'_, K>) {
        match (self.has_any, self.are_several) {
            (true, _) => pen.push(b" "),
            (false, true) => pen.push(b" class=\""),
            (false, false) => pen.push(b" class="),
        }
        self.has_any = true;
    }

    /// Writes the class of a device.
    pub(crate) fn push_device<K: Sink>(&mut self, pen: &mut Pen<'_, K>, addr: u8) {
        self.next(pen);
        pen.push(b"d");
        pen.push_number(addr);
    }

    /// Writes a class, if it is so.
    pub(crate) fn push_tone<K: Sink>(&mut self, pen: &mut Pen<'_, K>, is_so: bool, class: &[u8]) {
        if is_so {
            self.next(pen);
            pen.push(class);
        }
    }

    /// Ends the attribute.
    pub(crate) fn finish<K: Sink>(&self, pen: &mut Pen<'_, K>) {
        if self.are_several {
            pen.push(b"\"");
        }
    }
}
