//! How jobs end, and the devices that a scan lists.
ghost use Rattle.std.specs.Prelude.{◌≡◌, ℕ, ◌+◌, ◌*◌, ◌<◌, ◌≤◌, List, [], ◌∷◌, ◌++◌, length};
ghost use Rattle.cct_model_lines.specs.Text.{end_fields, listed_text, listed_field};
ghost use Rattle.cct_text.specs.Joined.{each_after, found, separator_past};
ghost use Rattle.cct_text.specs.Adding.{Adds, HasFields};

use crate::fields::{write_address, write_number, write_pair};
use crate::text::TextLine;
use cct_model_lines::{End, Listed, MOST_TEXT};

/// Writes the fields of a job's end.
pub(crate) fn write_end(line: &mut TextLine, addr: u8, end: &End)
    requires { line.old ≡ [] }
    ensures { HasFields line.new (end_fields addr end.now) }
{
    match end {
        End::Started => write_address(line, b"started", addr),
        End::StartUnsure => write_address(line, b"unsure", addr),
        End::Unquiet { counter } => write_pair(line, b"unquiet", addr, *counter),
        End::Clean => write_address(line, b"clean", addr),
        End::Posted => write_address(line, b"posted", addr),
        End::Broke => write_address(line, b"broke", addr),
        End::Moved => write_address(line, b"moved", addr),
        End::Stopped => write_address(line, b"stopped", addr),
        End::Closed => write_address(line, b"closed", addr),
        End::OddLife => write_address(line, b"oddlife", addr),
        End::NoAnswer => write_address(line, b"noanswer", addr),
        End::Listed(listed) => {
            line.push(b"listed");
            write_listed(line, listed);
        }
        End::Told => write_address(line, b"told", addr),
        End::PathSet { place, path } => {
            write_pair(line, b"pathset", addr, *place);
            write_number(line, u64::from(*path));
        }
        End::Routed => write_address(line, b"routed", addr),
        End::RouteUnsure => write_address(line, b"routeunsure", addr),
        End::Sold => line.push(b"sold"),
    }
}

/// Writes the listed devices as the next field, in rising order of address: joined by commas, or a
/// hyphen where there is none.
fn write_listed(line: &mut TextLine, listed: &Listed)
    requires { length line.old ≤ 100 }
    ensures { Adds line.old line.new (32 ∷ listed_field listed.now) 2820 }
{
    let mut separator = b' ';
    for addr in 0..256u16 {
        separator = write_device(line, separator, listed, addr as u8);
    }
    if separator == b' ' {
        line.push(b" -");
    }
}

/// Writes a device after a separator, where it is listed. Gives the separator of the next device: a
/// comma once one is written.
fn write_device(line: &mut TextLine, separator: u8, listed: &Listed, addr: u8) -> u8
    requires { length line.old + 11 ≤ MOST_TEXT }
    ensures adds { Adds line.old line.new (found separator (listed_text listed.now addr)) 11 }
    ensures next { result ≡ separator_past separator (listed_text listed.now addr) }
{
    let check: &[u8] = if listed.simple.has(addr) {
        b"/simple"
    } else if listed.crc.has(addr) {
        b"/crc"
    } else {
        return separator;
    };
    line.push(&[separator]);
    line.push_byte(addr);
    line.push(check);
    b','
}
