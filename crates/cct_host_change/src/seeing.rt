//! What becomes of a payment of a session, as the entries of a step show it.
ghost use Rattle.std.specs.Prelude.{◌≡◌, ◌∷◌, [], reverse};
ghost use Rattle.std.specs.List.{list_any};
ghost use Rattle.cct_model.specs.Change.{closed_in, is_end_at, is_opening, phase_after};
ghost use Rattle.cct_model.specs.Records.{records};
ghost use Rattle.cct_host_change.specs.Seeing.{closed_by, closed_told, opens};

use cct_model::{Entry, Payment, Phase, Record};

/// What became of a payment after a step with these entries, oldest first.
pub(crate) fn phase_after(payment: Payment, report: &[Entry], phase: Phase) -> Phase
    ensures { result ≡ phase_after payment (reverse report.now) phase }
{
    match phase {
        Phase::Begun => begun_after(payment, report),
        Phase::Opened => opened_after(payment.id, report),
        Phase::Closed { paid, unpaid } => Phase::Closed { paid, unpaid },
        Phase::Odd => Phase::Odd,
        Phase::Lost => Phase::Lost,
    }
}

/// The same of a payment whose job was to open its order.
fn begun_after(payment: Payment, report: &[Entry]) -> Phase
    ensures { result ≡ phase_after payment (reverse report.now) Phase.Begun }
{
    if is_opened(payment, report) {
        return Phase::Opened;
    }
    if is_ended(payment.addr, report) {
        return Phase::Lost;
    }
    Phase::Begun
}

/// Whether one of these entries shows a record that opens the order of a payment.
fn is_opened(payment: Payment, report: &[Entry]) -> bool
    ensures { result ≡ list_any (opens payment) report.now }
{
    report.iter().any(|entry| opens(payment, entry))
}

/// Whether one of these entries ends the job at an address.
fn is_ended(addr: u8, report: &[Entry]) -> bool
    ensures { result ≡ list_any (is_end_at addr) report.now }
{
    report.iter().any(|entry| is_end_at(addr, entry))
}

/// The same of a payment whose order was open.
fn opened_after(id: u32, report: &[Entry]) -> Phase
    ensures { result ≡ closed_in id (records (reverse report.now)) }
{
    let mut phase = Phase::Opened;
    for entry in report {
        phase = closed_told(id, entry, phase);
    }
    phase
}

/// Whether an entry shows a record that opens the order of a payment.
fn opens(payment: Payment, entry: &Entry) -> bool
    ensures { result ≡ opens payment entry.now }
{
    match entry {
        Entry::Put(record) => is_opening(payment, record),
        Entry::Kept(record) => is_opening(payment, record),
        _ => false,
    }
}

/// Whether a record opens the order of a payment.
fn is_opening(payment: Payment, record: &Record) -> bool
    ensures { result ≡ is_opening payment «record».now }
{
    match record {
        Record::Opened {
            id,
            addr,
            count,
            ..
        } => *id == payment.id && *addr == payment.addr && *count == payment.count,
        _ => false,
    }
}

/// Whether an entry ends the job at an address: it shows so, or it shows a power cut.
fn is_end_at(addr: u8, entry: &Entry) -> bool
    ensures { result ≡ is_end_at addr entry.now }
{
    match entry {
        Entry::Ended { addr: other, .. } => *other == addr,
        Entry::Crash { .. } => true,
        _ => false,
    }
}

/// What an entry says of an open order, or what was known before.
fn closed_told(id: u32, entry: &Entry, before: Phase) -> Phase
    ensures { result ≡ closed_told id entry.now before }
{
    match entry {
        Entry::Put(record) => closed_by(id, record, before),
        Entry::Kept(record) => closed_by(id, record, before),
        _ => before,
    }
}

/// What a record says of an open order, or what was known before.
fn closed_by(id: u32, record: &Record, before: Phase) -> Phase
    ensures { result ≡ closed_by id «record».now before }
{
    match record {
        Record::Closed {
            id: closed,
            paid,
            unpaid,
        } if *closed == id => Phase::Closed {
            paid: *paid,
            unpaid: *unpaid,
        },
        Record::Odd { id: closed, .. } if *closed == id => Phase::Odd,
        _ => before,
    }
}
