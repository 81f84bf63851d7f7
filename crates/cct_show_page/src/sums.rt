//! What is on top of a page: the sums by device, and the rows that are red.

use crate::Page;
use crate::column::Column;
use crate::device::Device;
use crate::needs::Needs;
use crate::row::{Body, Row, Tone};
use cct_edge::Sink;
use cct_model_lines::HOST;
use cct_show_pen::Pen;

/// The most red rows that are listed.
const MOST_RED: usize = 200;

/// Writes the sums of the devices that have any, in the columns that have any, and the last
/// balance.
pub(crate) fn write_sums<K: Sink>(pen: &mut Pen<'_, K>, page: &Page, needs: &Needs) {
    if needs.choose_devices || page.devices.column_count() > 0 {
        write_table(pen, page, needs);
    }
    write_money(pen, page);
}

/// Writes the table of the devices.
fn write_table<K: Sink>(pen: &mut Pen<'_, K>, page: &Page, needs: &Needs) {
    pen.push(b"<table><tr><th>");
    if needs.choose_devices {
        pen.push(b"<label><input type=radio name=d checked>all devices</label>");
    }
    for column in &Column::ALL {
        if page.devices.has_column(*column) {
            pen.push(b"<th>");
            pen.push(column.head());
        }
    }
    for addr in 1..=u8::MAX {
        if let Some(device) = page.devices.there(addr)
            && needs.has_device(device)
        {
            write_device(pen, page, needs, device);
        }
    }
    pen.push(b"</table>");
}

/// Writes the sums of a device, and its choice.
fn write_device<K: Sink>(pen: &mut Pen<'_, K>, page: &Page, needs: &Needs, device: &Device) {
    pen.push(b"<tr><td>");
    if needs.choose_devices {
        pen.push(b"<label><input type=radio name=d id=a");
        pen.push_number(device.addr);
        pen.push(b">");
    }
    pen.push(device.name());
    pen.push_number(device.addr);
    if needs.choose_devices {
        pen.push(b"</label>");
    }
    for column in &Column::ALL {
        if page.devices.has_column(*column) {
            write_sum(pen, needs, *column, device);
        }
    }
}

/// Writes a number of a table, in red where any is too many; or what is open at a device: its
/// order, or its epoch.
fn write_sum<K: Sink>(pen: &mut Pen<'_, K>, needs: &Needs, column: Column, device: &Device) {
    let number = device.sum(column);
    match needs.red && column.is_bad(device) {
        true => pen.push(b"<td class=x>"),
        false => pen.push(b"<td>"),
    }
    match (column, &device.order) {
        (Column::Open, Some(order)) => {
            pen.push(b"order ");
            pen.push_number(order.id);
            pen.push(b" for ");
            pen.push_number(order.count);
        }
        (Column::Open, None) if device.has_epoch => pen.push(b"epoch"),
        (Column::Open, None) => {}
        _ => pen.push_number(number),
    }
}

/// Writes the sums in money, where the rows show any.
fn write_money<K: Sink>(pen: &mut Pen<'_, K>, page: &Page) {
    if let Some(totals) = &page.balance {
        write_amount(pen, b"<p>The last balance: ", totals.available);
        write_amount(pen, b" available, ", totals.reserved);
        write_amount(pen, b" reserved, ", totals.paid);
        write_amount(pen, b" paid, ", totals.sold);
        pen.push(b" sold");
    }
    if page.devices.sales > 0 {
        write_amount(pen, b"<p>Sales: ", page.devices.sales);
        write_amount(pen, b", for ", page.devices.sold);
        pen.push(b" in all");
    }
}

/// Writes a number after a text.
fn write_amount<K: Sink>(pen: &mut Pen<'_, K>, before: &[u8], amount: u64) {
    pen.push(before);
    pen.push_number(amount);
}

/// Writes links to the rows that somebody is to look at, to the first ones where they are many.
pub(crate) fn write_red<K: Sink>(pen: &mut Pen<'_, K>, page: &Page) {
    let count = page.rows.iter().filter(|row| is_red(page, row)).count();
    if count == 0 {
        return;
    }
    pen.push(b"<p>To look at:");
    if count > MOST_RED {
        write_amount(pen, b" ", count as u64);
        pen.push(b"; \"errors\" shows all, these are the first");
    }
    let mut left = MOST_RED;
    for (place, row) in page.rows.iter().enumerate() {
        if left > 0 && is_red(page, row) {
            write_link(pen, place, row);
            left = left.saturating_sub(1);
        }
    }
}

/// Whether somebody is to look at a row: that of a command only where the job has no end.
pub(crate) fn is_red(page: &Page, row: &Row) -> bool {
    match row.body {
        Body::Job(index) => match page.jobs.get(index) {
            Some(job) => !job.has_end(),
            None => false,
        },
        Body::Talk(_) | Body::Line { .. } => row.tone == Tone::Red,
    }
}

/// Writes a link to the row at a place, by its number.
fn write_link<K: Sink>(pen: &mut Pen<'_, K>, place: usize, row: &Row) {
    pen.push(b" <a href=#");
    pen.push_number(place);
    pen.push(b">");
    pen.push_number(row.place.tap.unwrap_or(row.place.line));
    pen.push(b"</a>");
}

impl Device {
    /// The name of a device, before its address.
    pub(crate) fn name(&self) -> &'static [u8] {
        match self.addr {
            HOST => b"host, address ",
            _ => self.kind.name(),
        }
    }
}
