//! Commands, the reasons why they are refused, and wire faults.
ghost use Rattle.std.specs.Prelude.{◌≡◌, ℕ, ◌+◌, ◌<◌, ◌≤◌, List, [], ◌∷◌, ◌++◌, length};
ghost use Rattle.cct_model_lines.specs.declared.entry.Entry.TheVariants.{Fault};
ghost use Rattle.cct_model_lines.specs.Text.{command_fields, field_texts, reason_fields, fields_of};
ghost use Rattle.cct_text.specs.Joined.{each_after};
ghost use Rattle.cct_text.specs.Adding.{Adds, HasFields};

use crate::fields::{write_number, write_numbers, write_piece};
use crate::text::TextLine;
use cct_model_lines::{Command, CommandNo, Field, MOST_TEXT, WireFault};

/// Writes the fields of a command.
pub(crate) fn write_command(line: &mut TextLine, command: &Command)
    requires { length line.old + 80 ≤ MOST_TEXT }
    ensures { Adds line.old line.new (each_after 32 (command_fields command.now)) 80 }
{
    line.push(b" ");
    line.push(command.word());
    let (first, second, third) = command.fields();
    write_field(line, first);
    write_field(line, second);
    write_field(line, third);
}

/// Writes what a field spells as the next field, where there is one.
fn write_field(line: &mut TextLine, field: Field)
    requires { length line.old + 21 ≤ MOST_TEXT }
    ensures { Adds line.old line.new (each_after 32 (field_texts field)) 21 }
{
    match field {
        Field::Nothing => {}
        Field::Number { number, .. } => write_number(line, u64::from(number)),
        Field::Mask { mask } => {
            line.push(b" ");
            line.push_hex(&mask.to_be_bytes());
        }
    }
}

/// Writes the fields of a refusal's reason.
pub(crate) fn write_reason(line: &mut TextLine, why: &CommandNo)
    requires { length line.old + 80 ≤ MOST_TEXT }
    ensures { Adds line.old line.new (each_after 32 (reason_fields why.now)) 80 }
{
    match why {
        CommandNo::NoDevice => line.push(b" nodevice"),
        CommandNo::WrongKind => line.push(b" wrongkind"),
        CommandNo::Busy => line.push(b" busy"),
        CommandNo::EpochRuns => line.push(b" epochruns"),
        CommandNo::NoEpoch => line.push(b" noepoch"),
        CommandNo::NoValue { place } => write_numbers(line, b" novalue", &[u64::from(*place)]),
        CommandNo::OrderOpen { id } => write_numbers(line, b" orderopen", &[u64::from(*id)]),
        CommandNo::NoOrder => line.push(b" noorder"),
        CommandNo::NoPayout => line.push(b" nopayout"),
        CommandNo::OldId { last } => write_numbers(line, b" oldid", &[u64::from(*last)]),
        CommandNo::Short { have } => write_numbers(line, b" short", &[*have]),
        CommandNo::JournalFull { used, held, need } => write_numbers(
            line,
            b" journalfull",
            &[u64::from(*used), u64::from(*held), u64::from(*need)],
        ),
    }
}

/// Writes the fields of a wire fault.
pub(crate) fn write_fault(line: &mut TextLine, fault: &WireFault)
    requires { line.old ≡ [] }
    ensures { HasFields line.new (fields_of (Fault fault.now)) }
{
    match fault {
        WireFault::Clear => line.push(b"fault clear"),
        WireFault::DevicesHear(piece) => {
            line.push(b"fault devices");
            write_piece(line, piece.as_slice());
        }
        WireFault::HostHears(piece) => {
            line.push(b"fault host");
            write_piece(line, piece.as_slice());
        }
        WireFault::WholeHeard(piece) => {
            line.push(b"fault whole");
            write_piece(line, piece.as_slice());
        }
    }
}
