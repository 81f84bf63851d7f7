//! The values of the bills of a bill acceptor.
ghost use Rattle.cct_live_survey.specs.Asking.{Inquires};

use crate::lines::{At, Draft};
use cct_edge::{Failed, Sink};
use cct_live_survey::{Room, ValueRequest, value_of};
use cct_model_lines::COIN_PLACES;
use cct_text_worth::bill_value;
use cct_wire::Link;

/// The identification of a bill place that has no bill.
const NO_BILL: [u8; 7] = *b".......";

/// What is known of the scaling of a country's bills.
#[derive(Clone, Copy)]
enum Scaling {
    /// It wasn't asked yet.
    Unasked,
    /// The bills of this country are worth so many times their figures.
    Told { country: [u8; 2], factor: u16 },
    /// It isn't reported when it is asked.
    Untold,
}

/// Writes the values of the bills of a bill acceptor, as far as it shows them: a place is asked for
/// after the one before it was reported, and so is the scaling of another country.
pub(crate) fn draft_bills<L: Link, K: Sink, N: Sink>(
    at: At,
    link: &mut L,
    room: &mut Room,
    draft: &mut Draft<'_, '_, K, N>,
) -> Result<(), Failed>
    ensures inquires { (first : L) → Inquires L.gives first link.old →
        Inquires L.gives first link.new }
{
    let mut scaling = Scaling::Unasked;
    for place in 1..=COIN_PLACES as u8 {
        let Some(id) = bill_id_of(at, place, link, room) else {
            return draft.note_bills(at.addr);
        };
        if id != NO_BILL {
            scaling = scaling_for(id, scaling, at, link, room);
            draft.put_bill(at.addr, place, id, value_under(id, scaling))?;
        }
    }
    Ok(())
}

/// The identification of the bill of a place.
fn bill_id_of<L: Link>(at: At, place: u8, link: &mut L, room: &mut Room) -> Option<[u8; 7]>
    ensures inquires { (first : L) → Inquires L.gives first link.old →
        Inquires L.gives first link.new }
{
    let told = value_of(link, at.kind, at.addr, ValueRequest::BillId { place }, room)?;
    match *told.as_slice() {
        [a, b, c, d, e, f, g] => Some([a, b, c, d, e, f, g]),
        _ => None,
    }
}

/// What is known of the scaling of a bill's country, after it was asked for where it isn't known.
fn scaling_for<L: Link>(
    id: [u8; 7],
    scaling: Scaling,
    at: At,
    link: &mut L,
    room: &mut Room,
) -> Scaling
    ensures inquires { (first : L) → Inquires L.gives first link.old →
        Inquires L.gives first link.new }
{
    let [first, second, ..] = id;
    match scaling {
        Scaling::Told { country, .. } if country == [first, second] => scaling,
        Scaling::Untold => Scaling::Untold,
        _ => asked_scaling([first, second], at, link, room),
    }
}

/// The scaling of a country's bills, as the acceptor shows it.
fn asked_scaling<L: Link>(country: [u8; 2], at: At, link: &mut L, room: &mut Room) -> Scaling
    ensures inquires { (first : L) → Inquires L.gives first link.old →
        Inquires L.gives first link.new }
{
    let [first, second] = country;
    let request = ValueRequest::Scaling { first, second };
    let Some(told) = value_of(link, at.kind, at.addr, request, room) else {
        return Scaling::Untold;
    };
    match *told.as_slice() {
        [low, high, _] => Scaling::Told {
            country,
            factor: u16::from_le_bytes([low, high]),
        },
        _ => Scaling::Untold,
    }
}

/// The value of a bill under a scaling, if it is sure.
fn value_under(id: [u8; 7], scaling: Scaling) -> Option<u32> {
    match scaling {
        Scaling::Told { factor, .. } => bill_value(id, factor),
        _ => None,
    }
}
