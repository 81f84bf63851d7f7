//! In what a device isn't as the setup says, and the line that shows it.
ghost use Rattle.std.specs.Prelude.{◌≡◌, ◌+◌, ◌<◌, ◌≤◌, ◌++◌, length, map, IsErr};
ghost use Rattle.cct_edge.specs.Bytes.{Serves};
ghost use Rattle.cct_text.specs.Adding.{Adds};
ghost use Rattle.cct_text.specs.Writing.{PutsLine};
ghost use Rattle.cct_live_survey.specs.Finding.{begun, category_text, finding_line, finding_text};
ghost use Rattle.cct_live_survey.specs.Finding.{shown};

use crate::category::Category;
use cct_edge::{Failed, Sink};
use cct_model_lines::MOST_TEXT;
use cct_text::TextLine;

/// In what the device at an address of the setup isn't as the setup says.
#[derive(Clone, Drop, PartialEq, Eq)]
pub enum Finding {
    /// It gave no serial number (header 242), asked three times.
    Absent {
        addr: u8,
    },
    /// It gave the category (header 245) of another kind of device, or none, asked three times.
    Kind {
        addr: u8,
        category: Option<Category>,
    },
    /// It gave another serial number (header 242), below 2^24.
    Serial {
        addr: u8,
        number: u32,
    },
    /// It gave another identification of the coin of a place, 1 to 16 (header 184).
    Coin {
        addr: u8,
        place: u8,
        id: [u8; 6],
    },
}

impl Default for Finding {
    ghost use Rattle.std.specs.Prelude.{◌≡◌};
    ghost use Rattle.cct_live_survey.specs.declared.finding.Finding.TheVariants.{Absent};

    ghost is_default = { λ finding. finding ≡ Absent 0 };

    fn default() -> Self {
        Finding::Absent { addr: 0 }
    }
}

/// Writes the line of a finding by one put: `device A absent`, `device A kind TEXT`,
/// `device A serial N` or `device A coin PLACE TEXT` (`docs/LIVE.md`). A dash is the category that
/// isn't reported, and a question mark each byte of a text that isn't printing. The line buffer is
/// used for it, whatever it holds; afterwards it holds the line.
pub fn write_finding<K: Sink>(
    finding: &Finding,
    line: &mut TextLine,
    out: &mut K,
) -> Result<(), Failed>
    ensures puts { PutsLine K.written K.puts out.old (finding_line finding.now) result out.new }
    // Also if the put failed.
    ensures line { line.new ≡ finding_line finding.now }
    // Its line feed counts too.
    ensures short { length line.new < MOST_TEXT }
    ensures serves { Serves K.written K.faults out.old out.new (IsErr result) }
{
    push_finding(finding, line);
    line.push(b"\n");
    out.put(line.as_slice())
}

/// Replaces what a line holds by what a finding says, without a line feed.
#[tactic(auto, unfolding(crate::specs::Finding::finding_text))]
fn push_finding(finding: &Finding, line: &mut TextLine)
    ensures text { line.new ≡ finding_text finding.now }
    ensures room { length line.new ≤ 1000 }
{
    match finding {
        Finding::Absent { addr } => begin(*addr, b" absent", line),
        Finding::Kind { addr, category } => {
            begin(*addr, b" kind ", line);
            push_category(category, line);
        }
        Finding::Serial { addr, number } => {
            begin(*addr, b" serial ", line);
            line.push_number(u64::from(*number));
        }
        Finding::Coin { addr, place, id } => {
            begin(*addr, b" coin ", line);
            line.push_byte(*place);
            line.push(b" ");
            push_id(*id, line);
        }
    }
}

/// A line begins with a device and a word.
fn begin(addr: u8, word: &[u8], line: &mut TextLine)
    requires { length word.now ≤ 10 }
    ensures text { line.new ≡ begun addr word.now }
    ensures room { length line.new ≤ 20 }
{
    line.clear();
    line.push(b"device ");
    line.push_byte(addr);
    line.push(word);
}

/// Adds a category, or a dash.
fn push_category(category: &Option<Category>, line: &mut TextLine)
    requires { length line.old ≤ 100 }
    ensures { Adds line.old line.new (category_text category.now) 255 }
{
    match category {
        Some(category) => push_shown(category.as_slice(), line),
        None => line.push(b"-"),
    }
}

/// Adds the identification of a coin.
fn push_id(id: [u8; 6], line: &mut TextLine)
    requires { length line.old ≤ 100 }
    ensures { Adds line.old line.new (map shown id) 6 }
{
    push_shown(id.as_slice(), line);
}

/// Adds bytes that a device gave, at most 255, each that isn't printing as a question mark.
pub fn push_shown(text: &[u8], line: &mut TextLine)
    requires room { length line.old ≤ 100 }
    requires few { length text.now ≤ 255 }
    ensures { Adds line.old line.new (map shown text.now) (length text.now) }
{
    for byte in text {
        line.push(&[shown(*byte)]);
    }
}

/// A byte as it is shown: itself where it is printing or a space, else a question mark.
fn shown(byte: u8) -> u8
    ensures { result ≡ shown byte }
{
    if byte >= 0x20 && byte <= 0x7e {
        byte
    } else {
        b'?'
    }
}
