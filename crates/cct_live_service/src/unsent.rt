//! The line of an exchange whose message wasn't written.
ghost use Rattle.std.specs.Prelude.{◌≡◌, ◌≤◌, ◌<◌, [], length, IsErr};
ghost use Rattle.cct_edge.specs.Bytes.{Serves};
ghost use Rattle.cct_model_wire.specs.declared.wire.TheConstants.{MOST_SENT};
ghost use Rattle.cct_text.specs.Writing.{PutsLine};
ghost use Rattle.std.specs.Option.{IfSome};
ghost use Rattle.cct_live_service.specs.Notice.{unsent_line, unsent_text};
ghost use Rattle.cct_live_service.specs.Told.{told_line, told_unsent, unheard};

use crate::fields::write_number;
use cct_edge::{Failed, Sink};
use cct_model::{Entry, MOST_TEXT, Sent};
use cct_text::{TextLine, write_entry};

/// Writes the first entry of an attempt whose message wasn't written, by one put:
/// `unsent ADDRESS HEX` where it is an exchange in which nothing was heard.
pub(crate) fn tell_first<K: Sink>(
    out: &mut K,
    line: &mut TextLine,
    entry: &Entry,
) -> Result<(), Failed>
    ensures puts { PutsLine K.written K.puts out.old
        (told_line (told_unsent entry.now (unheard entry.now))) result out.new }
    ensures serves { Serves K.written K.faults out.old out.new (IsErr result) }
{
    match unheard(entry) {
        Some((addr, sent)) => tell_unsent(out, line, addr, sent.as_slice()),
        None => write_entry(out, line, entry),
    }
}

/// The address and the message of an exchange in which nothing was heard.
fn unheard(entry: &Entry) -> Option<(u8, Sent)>
    ensures message { result ≡ unheard entry.now }
    ensures short { IfSome result (λ message. length message.1 ≤ MOST_SENT) }
{
    match entry {
        Entry::Wire { addr, sent, heard } => {
            if heard.as_slice().is_empty() {
                Some((*addr, copied(sent.as_slice())))
            } else {
                None
            }
        }
        _ => None,
    }
}

/// The message of these bytes.
fn copied(bytes: &[u8]) -> Sent
    requires { length bytes.now ≤ MOST_SENT }
    ensures { result ≡ bytes.now }
{
    let mut sent = Sent::new();
    sent.extend_from_slice(bytes);
    sent
}

/// Writes the line `unsent ADDRESS HEX` by one put.
fn tell_unsent<K: Sink>(
    out: &mut K,
    line: &mut TextLine,
    addr: u8,
    sent: &[u8],
) -> Result<(), Failed>
    requires short { length sent.now ≤ MOST_SENT }
    ensures puts { PutsLine K.written K.puts out.old (unsent_line addr sent.now) result out.new }
    ensures serves { Serves K.written K.faults out.old out.new (IsErr result) }
{
    line.clear();
    write_unsent(line, addr, sent);
    line.push(b"\n");
    out.put(line.as_slice())
}

/// Writes the word, the address, and the bytes of the message in hexadecimal.
fn write_unsent(line: &mut TextLine, addr: u8, sent: &[u8])
    requires empty { line.old ≡ [] }
    requires short { length sent.now ≤ MOST_SENT }
    ensures text { line.new ≡ unsent_text addr sent.now }
    ensures room { length line.new < MOST_TEXT }
{
    line.push(b"unsent");
    write_number(line, u32::from(addr));
    line.push(b" ");
    line.push_hex(sent);
}
