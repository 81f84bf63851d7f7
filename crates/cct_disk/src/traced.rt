// Bytes with a trace of their changes: which spans were written, what stood there before, and what
// was settled.
ghost use Rattle.std.specs.Prelude.{◌≡◌, ◌↔◌, ◌+◌, ◌-◌, ◌<◌, ◌≤◌, ◌∷◌, [], ◌++◌, IsTrue, IfOk};
ghost use Rattle.std.specs.Prelude.{IfSome};
ghost use Rattle.std.specs.Prelude.{ℕ, length, take, reverse, get_or, set, replicate, vec_capacity};
ghost use Rattle.cct_disk.specs.Disk.{put_at, SameOutside};
ghost use Rattle.cct_disk.specs.Content.{window, written, written_torn, settled, unsynced_in};
ghost use Rattle.cct_disk.specs.Content.{cut_byte};
ghost use Rattle.cct_disk.specs.Content.{IsCut, CutsBytes, AddsNoImage};
ghost use Rattle.cct_disk.specs.Traced.{content_of, HasRoom, newest_span, IsKept, IsTraced};
ghost use Rattle.cct_disk.specs.Traced.{IsTracedAs};
ghost use Rattle.cct_disk.specs.declared.traced.Change.TheVariants.{Wrote};

use std::alloc::{AllocError, Global};

// How many writes, syncs and cuts there may be.
pub(crate) const MOST_CHANGES: u64 = 262_144;

// How many entries the trace may have: a cut writes each span once more.
const MOST_ENTRIES: usize = 524_288;

// How many bytes the writes and the cuts may replace.
pub(crate) const MOST_REPLACED: usize = 8_388_608;

// So many bytes from a place on.
#[derive(Clone, Copy)]
pub(crate) struct Span {
    pub(crate) at: usize,
    pub(crate) len: usize,
}

#[derive(Clone, Copy)]
pub(crate) enum Change {
    Wrote(Span),
    Settled,
}

#[derive(Drop)]
pub(crate) struct Traced {
    bytes: Vec<u8>,
    trace: Vec<Change>,
    // what the writes replaced, one after the other
    replaced: Vec<u8>,
    // how many writes, syncs and cuts there were
    changes: u64,
    // how many bytes the writes since the last sync or cut wrote
    unsynced: usize,
}

impl Traced {
    // So many zeros, without a change, and with the room for all that may come.
    pub(crate) fn new(alloc: Global, len: usize) -> Result<Traced, AllocError>
        ensures { IfOk result (IsTracedAs
            (record { bytes = replicate len 0; past = []; replaced = [] }) 0) }
    {
        Ok(Traced {
            bytes: Vec::from_elem(alloc, 0, len)?,
            trace: Vec::with_capacity(alloc, MOST_ENTRIES)?,
            replaced: Vec::with_capacity(alloc, MOST_REPLACED)?,
            changes: 0,
            unsynced: 0,
        })
    }

    pub(crate) fn bytes(&self) -> &[u8]
        ensures { result.now ≡ self.now.bytes.items }
    {
        &self.bytes
    }

    // Whether there is room for one more change that replaces so many bytes.
    pub(crate) fn has_room(&self, replaced: usize) -> bool
        requires { IsTraced self.now }
        ensures { IsTrue result ↔ HasRoom self.now replaced }
    {
        self.changes < MOST_CHANGES && replaced <= MOST_REPLACED - self.replaced.len()
    }

    // How many bytes a cut replaces.
    pub(crate) fn unsynced(&self) -> usize
        requires { IsTraced self.now }
        ensures { result ≡ unsynced_in (reverse self.now.trace.items) }
    {
        self.unsynced
    }

    pub(crate) fn write(&mut self, at: usize, bytes: &[u8])
        requires traced { IsTraced self.old }
        requires place { at + length bytes.now ≤ length self.old.bytes.items }
        requires room { HasRoom self.old (length bytes.now) }
        ensures { IsTracedAs (written at bytes.now (content_of self.old)) (self.old.changes + 1)
            self.new }
    {
        let len = bytes.len();
        overwrite(&mut self.bytes, &mut self.replaced, at, bytes);
        self.trace.push_reserved(Change::Wrote(Span { at, len }));
        self.changes += 1;
        self.unsynced += len;
    }

    // Writes, but leaves in the range what a cut would leave there by this choice: each byte is set
    // between the one that stood there and the one to be written.
    pub(crate) fn write_torn(&mut self, at: usize, bytes: &[u8], choice: u64)
        requires traced { IsTraced self.old }
        requires place { at + length bytes.now ≤ length self.old.bytes.items }
        requires room { HasRoom self.old (length bytes.now) }
        ensures { IsTracedAs (written_torn choice at bytes.now (content_of self.old))
            (self.old.changes + 1) self.new }
    {
        self.write(at, bytes);
        let kept = self.replaced.len() - bytes.len();
        choose(&mut self.bytes, at, &self.replaced[kept..], choice);
    }

    // All that was written is settled.
    pub(crate) fn settle(&mut self)
        requires kept { IsKept self.old }
        requires room { self.old.changes < MOST_CHANGES }
        ensures { IsTracedAs (settled (content_of self.old)) (self.old.changes + 1) self.new }
    {
        self.trace.push_reserved(Change::Settled);
        self.changes += 1;
        self.unsynced = 0;
    }

    // Sets each byte that isn't settled by the choice, and settles all.
    pub(crate) fn cut(&mut self, choice: u64)
        requires traced { IsTraced self.old }
        requires room { HasRoom self.old (unsynced_in (reverse self.old.trace.items)) }
        ensures traced { IsTraced self.new }
        ensures content { IsCut choice (content_of self.old) (content_of self.new) }
        ensures changes { self.new.changes ≡ self.old.changes + 1 }
    {
        self.rewrite_unsynced(choice);
        self.settle();
    }

    fn rewrite_unsynced(&mut self, choice: u64)
        requires traced { IsTraced self.old }
        requires room { HasRoom self.old (unsynced_in (reverse self.old.trace.items)) }
        ensures kept { IsKept self.new }
        ensures bytes { CutsBytes choice (content_of self.old) self.new.bytes.items }
        ensures images { AddsNoImage (content_of self.old) (content_of self.new) }
        ensures replaced { length self.new.replaced.items
            ≡ length self.old.replaced.items + unsynced_in (reverse self.old.trace.items) }
        ensures changes { self.new.changes ≡ self.old.changes }
    {
        let mut left = self.trace.len();
        let mut end = self.replaced.len();
        while let Some(span) = span_before(&self.trace, left) {
            left -= 1;
            end -= span.len;
            rewrite(&mut self.bytes, &mut self.replaced, span, end, choice);
            self.trace.push_reserved(Change::Wrote(span));
        }
    }

    // Sets one byte, as if it had always been there.
    pub(crate) fn poke(&mut self, at: usize, byte: u8)
        requires traced { IsTraced self.old }
        requires place { at < length self.old.bytes.items }
        ensures { IsTracedAs (record (content_of self.old) { bytes = set self.old.bytes.items at byte })
            self.old.changes self.new }
    {
        self.bytes[at] = byte;
    }
}

// Writes over the bytes from a place on, and keeps what it replaces.
fn overwrite(bytes: &mut Vec<u8>, replaced: &mut Vec<u8>, at: usize, new: &[u8])
    requires place { at + length new.now ≤ length bytes.old.items }
    requires room { length replaced.old.items + length new.now ≤ vec_capacity replaced.old }
    ensures bytes { bytes.new.items ≡ put_at bytes.old.items at new.now }
    ensures replaced { replaced.new.items ≡ replaced.old.items
        ++ window at (length new.now) bytes.old.items }
    ensures capacity { vec_capacity replaced.old ≤ vec_capacity replaced.new }
{
    let end = at + new.len();
    replaced.extend_from_slice(&bytes[at..end]).unwrap();
    bytes[at..end].copy_from_slice(new);
}

// The span of the newest of the first `left` changes, where that is a write.
fn span_before(trace: &[Change], left: usize) -> Option<Span>
    requires { left ≤ length trace.now }
    ensures span { result ≡ newest_span (reverse (take left trace.now)) }
    ensures rest { IfSome result (λ span. (0 < left)
        × (reverse (take left trace.now) ≡ Wrote span ∷ reverse (take (left - 1) trace.now))) }
{
    if left == 0 {
        return None;
    }
    match trace[left - 1] {
        Change::Wrote(span) => Some(span),
        Change::Settled => None,
    }
}

// Sets the bytes of a span by the choice between what is there and what is in `replaced` from `old`
// on, and keeps what it replaces.
fn rewrite(bytes: &mut Vec<u8>, replaced: &mut Vec<u8>, span: Span, old: usize, choice: u64)
    requires place { span.at + span.len ≤ length bytes.old.items }
    requires from { old + span.len ≤ length replaced.old.items }
    requires room { length replaced.old.items + span.len ≤ vec_capacity replaced.old }
    ensures outside { SameOutside span.at span.len bytes.old.items bytes.new.items }
    ensures inside { (i : ℕ) → i < span.len → get_or bytes.new.items (span.at + i) 0
        ≡ cut_byte choice (span.at + i) (get_or replaced.old.items (old + i) 0)
        (get_or bytes.old.items (span.at + i) 0) }
    ensures replaced { replaced.new.items ≡ replaced.old.items
        ++ window span.at span.len bytes.old.items }
    ensures capacity { vec_capacity replaced.old ≤ vec_capacity replaced.new }
{
    replaced
        .extend_from_slice(&bytes[span.at..span.at + span.len])
        .unwrap();
    choose(bytes, span.at, &replaced[old..old + span.len], choice);
}

// Sets the bytes from a place on by the choice between what is there and the old ones.
fn choose(bytes: &mut Vec<u8>, at: usize, old: &[u8], choice: u64)
    requires { at + length old.now ≤ length bytes.old.items }
    ensures outside { SameOutside at (length old.now) bytes.old.items bytes.new.items }
    ensures inside { (i : ℕ) → i < length old.now → get_or bytes.new.items (at + i) 0
        ≡ cut_byte choice (at + i) (get_or old.now i 0) (get_or bytes.old.items (at + i) 0) }
{
    for i in 0..old.len() {
        let place = at + i;
        bytes[place] = byte_after_cut(choice, place, old[i], bytes[place]);
    }
}

// The byte that a cut leaves at a place, of the old one and the new one.
fn byte_after_cut(choice: u64, place: usize, old: u8, new: u8) -> u8
    ensures { result ≡ cut_byte choice place old new }
{
    match choice {
        0 => old,
        1 => new,
        2 if place % 2 == 0 => new,
        2 => old,
        _ => ((choice % 256 + place as u64 % 256) % 256) as u8,
    }
}
