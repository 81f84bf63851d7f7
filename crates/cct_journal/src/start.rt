//! What a half begins with, as bytes: its header and its carry.
ghost use Rattle.std.specs.Prelude.{◌≡◌, ℕ, ◌+◌, ◌-◌, ◌*◌, ◌<◌, ◌≤◌, ◌↔◌, ◌++◌, IfNone, IfSome};
ghost use Rattle.std.specs.Prelude.{IsTrue, flat_map, length, replicate};
ghost use Rattle.std.specs.Int.{from_le_bytes, w32};
ghost use Rattle.cct_model_lines.specs.Carried.{IsRightly};
ghost use Rattle.cct_model_lines.specs.declared.carry.Carry.{Carry};
ghost use Rattle.cct_record.specs.CarryBody.{SpellsNone};
ghost use Rattle.cct_journal.specs.Half.{window};
ghost use Rattle.cct_journal.specs.Start.{Begins, HasParity, MayBegin, carry_slot, header_with};
ghost use Rattle.cct_journal.specs.Start.{start_of, start_with};
ghost use Rattle.cct_journal.specs.StartReading.{TellsStart, base_in, bodies_in, count_in};

use crate::format::{CARRY_BODIES, START, TITLE, VERSION};
use arrayvec::ArrayVec;
use cct_model_lines::Carry;
use cct_record::{encode_carry, read_carry};

/// The bytes of a header.
const HEADER: usize = 32;

/// The bytes of a body.
pub(crate) const BODY: usize = 31;

/// What a half begins with.
#[derive(Drop)]
pub(crate) struct Start {
    pub(crate) generation: u32,
    pub(crate) base: u32,
    pub(crate) carry: Carry,
}

/// The bytes that a half of today begins with.
pub(crate) fn spell_start(generation: u32, base: u32, carry: &Carry) -> [u8; START]
    requires { IsRightly base carry.now }
    ensures { result ≡ start_of generation base carry.now }
{
    let mut bodies = ArrayVec::new();
    encode_carry(carry, &mut bodies);
    spell_with(VERSION, generation, base, bodies.as_slice())
}

/// The bytes that a half begins with, in a version whose carry has these bodies.
#[tactic(auto, unfolding(crate::specs::Start::start_with))]
pub(crate) fn spell_with(
    version: u8,
    generation: u32,
    base: u32,
    bodies: &[[u8; BODY]],
) -> [u8; START]
    requires { length bodies.now ≤ CARRY_BODIES }
    ensures { result ≡ start_with version generation base bodies.now }
{
    let mut start = [0; START];
    start[..HEADER].copy_from_slice(&spell_header(version, generation, base, bodies.len() as u8));
    fill_slots(&mut start[HEADER..], bodies);
    start
}

/// The header of a half: the title and the version, the numbers, how many bodies its carry has, and
/// bytes 0.
fn spell_header(version: u8, generation: u32, base: u32, bodies: u8) -> [u8; HEADER]
    ensures { result ≡ header_with version generation base bodies }
{
    let mut header = [0; HEADER];
    header[..15].copy_from_slice(&TITLE);
    header[15] = version;
    header[16..20].copy_from_slice(&generation.to_le_bytes());
    header[20..24].copy_from_slice(&base.to_le_bytes());
    header[24] = bodies;
    header
}

/// Fills slots with bodies: a byte 0 and a body each.
fn fill_slots(area: &mut [u8], bodies: &[[u8; BODY]])
    requires empty { area.old ≡ replicate 1120 0 }
    requires few { length bodies.now ≤ CARRY_BODIES }
    ensures { area.new ≡ flat_map carry_slot bodies.now
        ++ replicate (1120 - 32 * length bodies.now) 0 }
{
    let mut at = 1;
    for body in bodies {
        area[at..at + BODY].copy_from_slice(body);
        at += BODY + 1;
    }
}

/// What a half begins with that has these first bytes, or none where no half begins so.
pub(crate) fn read_start(bytes: &[u8; START], second: bool) -> Option<Start>
    ensures begins { IfSome result (λ s. Begins second s.generation s.base s.carry bytes.now) }
    // Only bytes with which no such half begins.
    ensures none { IfNone result ((generation base : ℕ) (carry : Carry)
        → Begins second generation base carry bytes.now → ⊥) }
{
    let start = start_in(bytes)?;
    if begins(&start, bytes, second) {
        Some(start)
    } else {
        None
    }
}

/// Whether a half begins so, where the carry may be that of so many records.
fn begins(start: &Start, bytes: &[u8; START], second: bool) -> bool
    requires { IsRightly start.now.base start.now.carry }
    ensures { IsTrue result ↔ Begins second start.now.generation start.now.base start.now.carry
        bytes.now }
{
    may_begin(start, second) && is_spelt_by(start, bytes)
}

/// Whether a half may begin so, where the carry may be that of so many records.
fn may_begin(start: &Start, second: bool) -> bool
    requires { IsRightly start.now.base start.now.carry }
    ensures { IsTrue result ↔ MayBegin second start.now.generation start.now.base start.now.carry }
{
    has_parity(start.generation, second) && u64::from(start.generation) <= u64::from(start.base) + 1
}

/// Whether a generation is one of the first or of the second half.
pub(crate) fn has_parity(generation: u32, second: bool) -> bool
    ensures { IsTrue result ↔ HasParity second generation }
{
    if second {
        generation % 2 == 1
    } else {
        generation % 2 == 0
    }
}

/// Whether these are the bytes that a half begins with.
fn is_spelt_by(start: &Start, bytes: &[u8; START]) -> bool
    requires { IsRightly start.now.base start.now.carry }
    ensures { IsTrue result ↔ (start_of start.now.generation start.now.base start.now.carry
        ≡ bytes.now) }
{
    spell_start(start.generation, start.base, &start.carry) == *bytes
}

/// The numbers and the carry that stand in the first bytes of a half, or none where no carry is
/// there.
fn start_in(bytes: &[u8; START]) -> Option<Start>
    ensures stands { IfSome result (λ s. TellsStart s.generation s.base s.carry bytes.now) }
    ensures none { IfNone result (count_in bytes.now ≤ CARRY_BODIES
        → SpellsNone (base_in bytes.now) (bodies_in (count_in bytes.now) bytes.now)) }
{
    let bodies = bodies_at(bytes)?;
    let base = four_at(bytes, 20);
    let carry = read_carry(base, bodies.as_slice())?;
    Some(Start {
        generation: four_at(bytes, 16),
        base,
        carry,
    })
}

/// The bodies of a carry in the first bytes of a half, or none where there are more than a carry
/// has.
pub(crate) fn bodies_at(bytes: &[u8; START]) -> Option<ArrayVec<[u8; BODY], CARRY_BODIES>>
    ensures found { IfSome result (λ bodies. bodies.items
        ≡ bodies_in (count_in bytes.now) bytes.now) }
    ensures few { IfSome result (λ bodies. length bodies.items ≤ CARRY_BODIES) }
    ensures none { IfNone result (CARRY_BODIES < count_in bytes.now) }
{
    let count = bytes[24] as usize;
    if CARRY_BODIES < count {
        return None;
    }
    Some(bodies_in(bytes, count))
}

/// The number of four bytes, low byte first.
pub(crate) fn four_at(bytes: &[u8; START], at: usize) -> u32
    requires { at + 4 ≤ START }
    ensures { result ≡ from_le_bytes w32 (window at 4 bytes.now) }
{
    let mut four = [0; 4];
    four.copy_from_slice(&bytes[at..at + 4]);
    u32::from_le_bytes(four)
}

/// The bodies of so many slots after the header.
fn bodies_in(bytes: &[u8; START], count: usize) -> ArrayVec<[u8; BODY], CARRY_BODIES>
    requires { count ≤ CARRY_BODIES }
    ensures { result.items ≡ bodies_in count bytes.now }
{
    let mut bodies = ArrayVec::new();
    for slot in 0..count {
        bodies.push(body_at(bytes, 33 + 32 * slot));
    }
    bodies
}

/// The body that is at a place.
fn body_at(bytes: &[u8; START], at: usize) -> [u8; BODY]
    requires { at + BODY ≤ START }
    ensures { result ≡ window at BODY bytes.now }
{
    let mut body = [0; BODY];
    body.copy_from_slice(&bytes[at..at + BODY]);
    body
}
