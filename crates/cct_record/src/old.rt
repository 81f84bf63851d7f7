//! The bodies of a journal of version 1 or 2 are read.
ghost use Rattle.std.specs.Prelude.{◌≡◌, ◌+◌, ◌≤◌, All, IfNone, IfSome, length, map};
ghost use Rattle.cct_record.specs.OldBody.{IsRefusedOld, OldSpells};
ghost use Rattle.cct_record.specs.OldCarryBody.{OldSpellsCarry, OldSpellsNone};
ghost use Rattle.cct_record.specs.Today.{HasRoom, added, added_at, today, widen};

use crate::kind::{BODIES, BODY, BROKEN, EPOCH, READING, RUNNING};
use crate::{read, read_carry};
use arrayvec::ArrayVec;
use cct_model_lines::{Carry, Record};

/// The record that a body of a journal of version 1 or 2 spells (`docs/JOURNAL.md`, "Old bodies"),
/// or none where no record is spelt so: the kind isn't known, more than five coins are said, a coin
/// has the coin place 0, or a byte after the fields isn't 0.
///
/// Both versions spelt records alike. The accept counter is 0, and so is the number of coins that a
/// broken epoch lost.
pub fn read_old(version: u8, bytes: &[u8; 31]) -> Option<Record>
    requires from_1 { 1 ≤ version }
    requires to_2 { version ≤ 2 }
    ensures spelt { IfSome result (λ r. OldSpells r bytes.now) }
    // Only bytes that spell no record.
    ensures refused { IfNone result (IsRefusedOld bytes.now) }
{
    read(&today(bytes)?)
}

/// The carry of `base` records that the bodies of a journal of version 2 spell (`docs/JOURNAL.md`,
/// "Old bodies"), or none where they spell none: they aren't the bodies of a carry in their order,
/// or no carry of so many records has these numbers. The accept counters of its epochs are 0.
pub fn read_old_carry(base: u32, bodies: &[[u8; 31]]) -> Option<Carry>
    ensures spelt { IfSome result (λ c. OldSpellsCarry base c bodies.now) }
    // Only bodies that spell no carry of so many records.
    ensures refused { IfNone result (OldSpellsNone base bodies.now) }
{
    if BODIES < bodies.len() {
        return None;
    }
    let bodies = all_today(bodies)?;
    read_carry(base, bodies.as_slice())
}

/// Old bodies as today's, or none where a byte that has to go isn't 0.
fn all_today(bodies: &[[u8; BODY]]) -> Option<ArrayVec<[u8; BODY], BODIES>>
    requires { length bodies.now ≤ BODIES }
    ensures same { IfSome result (λ all. all.items ≡ map today bodies.now) }
    ensures room { IfSome result (λ all. All HasRoom bodies.now) }
    ensures none { IfNone result (All HasRoom bodies.now → ⊥) }
{
    let mut all = ArrayVec::new();
    for body in bodies {
        all.push(today(body)?);
    }
    Some(all)
}

/// An old body as today's, or none where a byte that has to go isn't 0.
fn today(bytes: &[u8; BODY]) -> Option<[u8; BODY]>
    ensures same { IfSome result (λ body. body ≡ today bytes.now) }
    ensures room { IfSome result (λ body. HasRoom bytes.now) }
    ensures none { IfNone result (HasRoom bytes.now → ⊥) }
{
    let (at, many) = added(bytes[0]);
    let end = BODY - many;
    if bytes[end..] == [0; BODY][end..] {
        Some(widened(bytes, at, many))
    } else {
        None
    }
}

/// A body with so many bytes 0 put in at a place; as many at its end go.
fn widened(bytes: &[u8; BODY], at: usize, many: usize) -> [u8; BODY]
    requires { at + many ≤ BODY }
    ensures { result ≡ widen at many bytes.now }
{
    let mut body = [0; BODY];
    body[..at].copy_from_slice(&bytes[..at]);
    body[at + many..].copy_from_slice(&bytes[at..BODY - many]);
    body
}

/// From which place on today's body of a kind has bytes that the old one hadn't, and how many.
fn added(kind: u8) -> (usize, usize)
    ensures at { result.0 ≡ added_at kind }
    ensures many { result.1 ≡ added kind }
    ensures within { result.0 + result.1 ≤ BODY }
{
    match kind {
        EPOCH => (4, 3),
        READING => (4, 5),
        BROKEN => (5, 6),
        RUNNING => (5, 3),
        _ => (0, 0),
    }
}
