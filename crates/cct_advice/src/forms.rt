//! The forms of all lines of a script, of a capture and of the input of a host on a line: the
//! tables of `docs/SCRIPT.md` and `docs/LIVE.md`.

use crate::rule::Rule;
use cct_model_lines::{
    COIN_PLACES, GREATEST_AMOUNT, GREATEST_FIRST, MOST_HEARD, MOST_SENT, PATHS, RETURN_CODE,
    STACK_CODE,
};
use std::fmt;

/// A part of a script, of a capture or of the input of a host on a line.
#[derive(Clone, Copy, PartialEq, Eq)]
pub(crate) enum Part {
    /// The setup lines of a script, up to `begin`.
    Setup,
    /// The step lines of a script, up to `end`.
    Steps,
    /// The watch lines of a capture, up to `begin`.
    Watches,
    /// The tap lines of a capture, up to `end`.
    Taps,
    /// The lines of the input of a host on a line, up to `end`.
    Live,
}

impl Part {
    /// The text of which it is a part.
    pub(crate) fn text(self) -> Text {
        match self {
            Part::Setup | Part::Steps => Text::Script,
            Part::Watches | Part::Taps => Text::Capture,
            Part::Live => Text::Input,
        }
    }

    /// The other part of its text, or itself where there is one alone.
    pub(crate) fn other(self) -> Part {
        match self {
            Part::Setup => Part::Steps,
            Part::Steps => Part::Setup,
            Part::Watches => Part::Taps,
            Part::Taps => Part::Watches,
            Part::Live => Part::Live,
        }
    }
}

/// What is read on standard input.
#[derive(Clone, Copy, PartialEq, Eq)]
pub(crate) enum Text {
    Script,
    Capture,
    /// That of a host on a line.
    Input,
}

impl Text {
    /// Its name.
    pub(crate) fn name(self) -> &'static str {
        match self {
            Text::Script => "script",
            Text::Capture => "capture",
            Text::Input => "input",
        }
    }

    /// Its part up to `begin`.
    pub(crate) fn front(self) -> Part {
        match self {
            Text::Script => Part::Setup,
            Text::Capture => Part::Watches,
            Text::Input => Part::Live,
        }
    }

    /// Its part after `begin`.
    pub(crate) fn body(self) -> Part {
        match self {
            Text::Script => Part::Steps,
            Text::Capture => Part::Taps,
            Text::Input => Part::Live,
        }
    }
}

/// A field: its name, and what it may be.
#[derive(Clone, Copy)]
pub(crate) struct Field(&'static str, Rule);

impl Field {
    /// The name, as the document has it.
    pub(crate) fn name(&self) -> &'static str {
        self.0
    }

    /// What it may be.
    pub(crate) fn rule(&self) -> Rule {
        self.1
    }
}

/// A form of a line: the part in which it may stand, its word, and the fields after it.
#[derive(Clone, Copy)]
pub(crate) struct Form(Part, &'static str, &'static [Field]);

impl Form {
    /// The part in which it may stand.
    pub(crate) fn part(&self) -> Part {
        self.0
    }

    /// The word.
    pub(crate) fn word(&self) -> &'static str {
        self.1
    }

    /// The fields after the word.
    pub(crate) fn fields(&self) -> &'static [Field] {
        self.2
    }

    /// Whether it is of this word in this part.
    pub(crate) fn is_of(&self, part: Part, word: &[u8]) -> bool {
        self.0 == part && self.1.as_bytes() == word
    }
}

impl fmt::Display for Form {
    fn fmt<W: fmt::Write>(&self, f: &mut fmt::Formatter<W>) -> fmt::Result {
        f.write_str(self.1)?;
        for field in self.2 {
            f.write_str(" ")?;
            f.write_str(field.0)?;
        }
        Ok(())
    }
}

const MOST_THREE_BYTES: u64 = 16_777_215;

const MOST_VALUE: u64 = 1_000_000;

const MOST_PLACE: u64 = COIN_PLACES as u64;

const MOST_NUMBER: u64 = 4_294_967_295;

/// The address of a device.
const DEVICE: Field = Field("A", Rule::Number(2, 255));

/// An address of a step line.
const A: Field = Field("A", Rule::Number(0, 255));

const CHECK: Field = Field("CHECK", Rule::Check);

const SERIAL: Field = Field("SERIAL", Rule::Number(0, MOST_THREE_BYTES));

const ACCEPTS: Field = Field("ACCEPTS", Rule::Number(0, MOST_THREE_BYTES));

const LIFE: Field = Field("LIFE", Rule::Number(0, MOST_THREE_BYTES));

const VALUE: Field = Field("VALUE", Rule::Number(1, MOST_VALUE));

const PLACE: Field = Field("PLACE", Rule::Number(1, MOST_PLACE));

const PLACE_OR_ALL: Field = Field("PLACE", Rule::Number(0, MOST_PLACE));

const PATH: Field = Field("PATH", Rule::Number(1, PATHS as u64));

const WAY: Field = Field("WAY", Rule::Number(RETURN_CODE as u64, STACK_CODE as u64));

const ID: Field = Field("ID", Rule::Id);

const MASK: Field = Field("MASK", Rule::Mask);

const ORDER: Field = Field("ORDER", Rule::Number(1, MOST_NUMBER));

const SALE: Field = Field("SALE", Rule::Number(1, MOST_NUMBER));

const COUNT: Field = Field("COUNT", Rule::Number(1, 255));

/// How many coins are in a hopper.
const STOCK: Field = Field("COUNT", Rule::Number(0, MOST_NUMBER));

const FIRST: Field = Field("FIRST", Rule::Number(1, GREATEST_FIRST as u64));

const AMOUNT: Field = Field("AMOUNT", Rule::Number(1, GREATEST_AMOUNT as u64));

const PRICE: Field = Field("PRICE", Rule::Number(1, 1_000_000_000));

const CALLS: Field = Field("CALLS", Rule::Number(0, 4));

const CHOICE: Field = Field("CHOICE", Rule::Number(0, u64::MAX));

const MAKER: Field = Field("MAKER", Rule::Text);

const PRODUCT: Field = Field("PRODUCT", Rule::Text);

const SOFTWARE: Field = Field("SOFTWARE", Rule::Text);

const BUILD: Field = Field("BUILD", Rule::Text);

const DEVICES: Field = Field("devices", Rule::Only("devices"));

const HOST: Field = Field("host", Rule::Only("host"));

const WHOLE: Field = Field("whole", Rule::Only("whole"));

const PIECE: Field = Field("PIECE", Rule::Piece(MOST_SENT));

const WHOLE_PIECE: Field = Field("PIECE", Rule::Piece(MOST_HEARD));

const KIND: Field = Field("KIND", Rule::Kind);

const QUIET_KIND: Field = Field("KIND", Rule::QuietKind);

const PREMISE_KIND: Field = Field("KIND", Rule::PremiseKind);

const QUIET: Field = Field("quiet", Rule::Only("quiet"));

const PREMISES: Field = Field("premises", Rule::Only("premises"));

const SENT: Field = Field("SENT", Rule::Bytes(MOST_SENT));

const HEARD: Field = Field("HEARD", Rule::Piece(MOST_HEARD));

/// The fields of a line that has an address alone after its word.
const AT: &[Field] = &[A];

/// The forms of all lines, in the order of the document.
pub(crate) const FORMS: &[Form] = &[
    Form(Part::Setup, "acceptor", &[DEVICE, CHECK, SERIAL, ACCEPTS]),
    Form(Part::Setup, "hopper", &[DEVICE, CHECK, SERIAL, LIFE, VALUE]),
    Form(Part::Setup, "bills", &[DEVICE, CHECK, SERIAL, ACCEPTS]),
    Form(Part::Setup, "value", &[DEVICE, PLACE, VALUE, ID]),
    Form(
        Part::Setup,
        "texts",
        &[DEVICE, MAKER, PRODUCT, SOFTWARE, BUILD],
    ),
    Form(Part::Setup, "begin", &[]),
    Form(Part::Steps, "coin", &[A, PLACE]),
    Form(Part::Steps, "alien", AT),
    Form(Part::Steps, "bill", &[A, PLACE]),
    Form(Part::Steps, "fall", AT),
    Form(Part::Steps, "jam", AT),
    Form(Part::Steps, "reset", AT),
    Form(Part::Steps, "fault", &[DEVICES, PIECE]),
    Form(Part::Steps, "fault", &[HOST, PIECE]),
    Form(Part::Steps, "fault", &[WHOLE, WHOLE_PIECE]),
    Form(Part::Steps, "start", &[A, MASK]),
    Form(Part::Steps, "round", AT),
    Form(Part::Steps, "stop", AT),
    Form(Part::Steps, "pay", &[A, ORDER, COUNT]),
    Form(Part::Steps, "settle", AT),
    Form(Part::Steps, "halt", AT),
    Form(Part::Steps, "vend", &[SALE, PRICE]),
    Form(Part::Steps, "ident", AT),
    Form(Part::Steps, "path", &[A, PLACE_OR_ALL, PATH]),
    Form(Part::Steps, "route", &[A, WAY]),
    Form(Part::Steps, "scan", &[]),
    Form(Part::Steps, "next", AT),
    Form(Part::Steps, "crash", &[CHOICE]),
    Form(Part::Steps, "crash", &[A, CALLS, CHOICE]),
    Form(Part::Steps, "balance", &[]),
    Form(Part::Steps, "stock", &[A, STOCK]),
    Form(Part::Steps, "change", &[FIRST, AMOUNT]),
    Form(Part::Steps, "serve", &[]),
    Form(Part::Steps, "end", &[]),
    Form(Part::Watches, "watch", &[DEVICE, CHECK, KIND]),
    Form(Part::Watches, "watch", &[DEVICE, CHECK, QUIET_KIND, QUIET]),
    Form(
        Part::Watches,
        "watch",
        &[DEVICE, CHECK, PREMISE_KIND, PREMISES],
    ),
    Form(Part::Watches, "begin", &[]),
    Form(Part::Taps, "tap", &[SENT, HEARD]),
    Form(Part::Taps, "end", &[]),
    Form(Part::Live, "start", &[A, MASK]),
    Form(Part::Live, "round", AT),
    Form(Part::Live, "stop", AT),
    Form(Part::Live, "pay", &[A, ORDER, COUNT]),
    Form(Part::Live, "settle", AT),
    Form(Part::Live, "halt", AT),
    Form(Part::Live, "vend", &[SALE, PRICE]),
    Form(Part::Live, "ident", AT),
    Form(Part::Live, "path", &[A, PLACE_OR_ALL, PATH]),
    Form(Part::Live, "route", &[A, WAY]),
    Form(Part::Live, "scan", &[]),
    Form(Part::Live, "next", AT),
    Form(Part::Live, "do", AT),
    Form(Part::Live, "poll", &[]),
    Form(Part::Live, "balance", &[]),
    Form(Part::Live, "stock", &[A, STOCK]),
    Form(Part::Live, "change", &[FIRST, AMOUNT]),
    Form(Part::Live, "serve", &[]),
    Form(Part::Live, "status", &[]),
    Form(Part::Live, "state", &[]),
    Form(Part::Live, "order", &[ORDER]),
    Form(Part::Live, "end", &[]),
];

/// The forms of a word, joined by `or`.
#[derive(Drop)]
pub(crate) struct FormsOf<'l> {
    pub part: Part,
    pub word: &'l [u8],
}

impl fmt::Display for FormsOf<'_> {
    fn fmt<W: fmt::Write>(&self, f: &mut fmt::Formatter<W>) -> fmt::Result {
        let mut joint = "";
        for form in FORMS {
            joint = write_joined(joint, self, form, f)?;
        }
        Ok(())
    }
}

/// Writes a form after a joint where it is of the word, and gives the joint for the next one.
fn write_joined<W: fmt::Write>(
    joint: &'static str,
    wanted: &FormsOf<'_>,
    form: &Form,
    f: &mut fmt::Formatter<W>,
) -> Result<&'static str, fmt::Error> {
    if !form.is_of(wanted.part, wanted.word) {
        return Ok(joint);
    }
    write!(f, "{joint}{form}")?;
    Ok(" or ")
}

/// The words of a part, joined by commas.
#[derive(Drop)]
pub(crate) struct WordsOf(pub Part);

impl fmt::Display for WordsOf {
    fn fmt<W: fmt::Write>(&self, f: &mut fmt::Formatter<W>) -> fmt::Result {
        let mut before = "";
        for form in FORMS {
            before = write_word(before, self.0, form, f)?;
        }
        Ok(())
    }
}

/// Writes the word of a form where it is of the part and another one than before, and gives the
/// word that is now the last.
fn write_word<W: fmt::Write>(
    before: &'static str,
    part: Part,
    form: &Form,
    f: &mut fmt::Formatter<W>,
) -> Result<&'static str, fmt::Error> {
    let word = form.word();
    if form.part() != part || word == before {
        return Ok(before);
    }
    let comma = if before.is_empty() { "" } else { ", " };
    write!(f, "{comma}{word}")?;
    Ok(word)
}
