//! How a page looks: in light and dark, on a phone and on paper. Each rule is there only where a
//! page needs it, since a short page is to be short.

use crate::Page;
use crate::needs::Needs;
use cct_edge::Sink;
use cct_show_pen::Pen;

/// What every page needs but a plain one: numbers, times and bytes are grey.
const LOOK: &[u8] = b"\
:root{color-scheme:light dark;font:14px system-ui}\
ol{margin:0}\
::marker,i,b{color:gray;font:12px monospace}";

/// What every page needs. A row is an item of a list, which numbers it; in its words a line feed
/// represents itself.
const ROWS: &[u8] = b"li{white-space:pre-wrap";

/// What every page needs, after what a row needs for long words.
const ROWS_END: &[u8] = b"}";

/// The words of a row that are wider than a phone.
const LONG: &[u8] = b";overflow-wrap:anywhere";

/// Rows without a number.
const UNNUMBERED: &[u8] = b".n{list-style:none}";

/// Numbers of more than four digits.
const WIDE: &[u8] = b"ol{padding-left:5em}";

/// A table with several numbers, and one that may be wider than a phone.
const NUMBERS: &[u8] = b"td,th{padding:0 .5em;text-align:right}";

const WIDE_TABLE: &[u8] = b"table{display:block;overflow:auto}";

/// The bytes of an exchange, where they aren't wanted.
const BYTES: &[u8] = b":has(#bytes:not(:checked)) i{display:none}";

/// What somebody is to look at: rows with an id. Nothing is reported by a colour alone: they have a
/// bar at their left, and a link on top.
const RED: &[u8] = b"li[id],.x>summary,td.x{box-shadow:-3px 0;color:#d33}";

/// What is unusual.
const ODD: &[u8] = b".o{color:#c60}";

/// A record.
const RECORD: &[u8] = b".w{background:#48f3}";

/// The folds of a page in which rows are chosen show them.
const CHOSEN: &[u8] = b"\
:has(#errors:checked,#records:checked) main ::details-content{content-visibility:visible}";

/// The picture: its words lie over its lines. The width of its tabs comes next.
const PICTURE: &[u8] = b"\
svg{position:absolute;z-index:-1}\
pre{contain:paint;overflow:auto;font:10px/14px monospace;tab-size:";

/// The rows of a long page: a number is within its row, since a row that isn't drawn whole has
/// nothing outside it.
const MANY: &[u8] = b"\
ol{padding:0}\
li{list-style-position:inside;padding-left:4em;text-indent:-4em;content-visibility:auto;contain-intrinsic-size:auto 4em}";

/// A table with so many columns has several numbers, and with so many it may be wider than a phone.
const SEVERAL_COLUMNS: usize = 2;

const MANY_COLUMNS: usize = 5;

/// Writes the style of a page.
pub(crate) fn write_style<K: Sink>(pen: &mut Pen<'_, K>, page: &Page, needs: &Needs) {
    push_rule(pen, !needs.plain, LOOK);
    pen.push(ROWS);
    push_rule(pen, needs.long_words, LONG);
    pen.push(ROWS_END);
    push_rule(pen, needs.unnumbered, UNNUMBERED);
    if !needs.plain {
        write_rules(pen, page, needs);
    }
}

/// Writes the rules without which a page can be read, too.
fn write_rules<K: Sink>(pen: &mut Pen<'_, K>, page: &Page, needs: &Needs) {
    let columns = page.devices.column_count();
    push_rule(pen, needs.wide_numbers, WIDE);
    push_rule(pen, columns >= SEVERAL_COLUMNS, NUMBERS);
    push_rule(pen, columns >= MANY_COLUMNS, WIDE_TABLE);
    push_rule(pen, needs.red, RED);
    push_rule(pen, needs.odd, ODD);
    push_rule(pen, needs.records, RECORD);
    if let Some(width) = needs.tab_width {
        pen.push(PICTURE);
        pen.push_number(width);
        pen.push(b"px}");
    }
    push_rule(pen, needs.many_rows, MANY);
    push_rule(pen, needs.choose_bytes, BYTES);
    write_kind_rules(pen, needs);
    push_rule(pen, needs.folds && needs.has_kind_choice(), CHOSEN);
    if needs.choose_devices {
        write_device_rules(pen, page, needs);
    }
}

/// Writes a rule where it is needed.
fn push_rule<K: Sink>(pen: &mut Pen<'_, K>, is_needed: bool, rule: &[u8]) {
    if is_needed {
        pen.push(rule);
    }
}

/// Writes the rules that hide what is no error, or no record, where such rows are chosen. A fold
/// stays for what is in it.
fn write_kind_rules<K: Sink>(pen: &mut Pen<'_, K>, needs: &Needs) {
    push_rule(
        pen,
        needs.choose_red,
        b":has(#errors:checked) :is(li,main>*):not([id],.x,:has([id])){display:none}",
    );
    push_rule(
        pen,
        needs.choose_records,
        b":has(#records:checked) :is(li,main>*):not(.w,:has(.w)){display:none}",
    );
}

/// Writes the rules that hide the rows and folds of all other devices, where one is chosen.
fn write_device_rules<K: Sink>(pen: &mut Pen<'_, K>, page: &Page, needs: &Needs) {
    pen.push(b"main>details,main>ol>*{");
    let mut before: &[u8] = b"";
    for addr in 1..=u8::MAX {
        if let Some(device) = page.devices.there(addr)
            && needs.has_device(device)
        {
            pen.push(before);
            pen.push(b":has(#a");
            pen.push_number(addr);
            pen.push(b":checked) &:not(.d");
            pen.push_number(addr);
            pen.push(b")");
            before = b",";
        }
    }
    pen.push(b"{display:none}}");
}
