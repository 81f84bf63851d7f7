//! A question over a link: it is asked until it is answered, three times at most.
ghost use Rattle.std.specs.Prelude.{◌≡◌, ◌≤◌, is_some, true};
ghost use Rattle.std.specs.Option.{option_map};
ghost use Rattle.cct_model_wire.specs.Exchange.{after_echo, ask, got};
ghost use Rattle.cct_model_wire.specs.Reply.{reply_shown};
ghost use Rattle.cct_model_wire.specs.declared.request.Request.TheVariants as request;
ghost use Rattle.cct_model_wire.specs.declared.request.ReplyForm.TheVariants as form;
ghost use Rattle.cct_live_survey.specs.declared.question.TheConstants.{TRIES};
ghost use Rattle.cct_live_survey.specs.Asking.{Asked, Asks, Inquires, answers_to_all};
ghost use Rattle.cct_live_survey.specs.Asking.{category_told, id_told, is_identity, reply_to};
ghost use Rattle.cct_live_survey.specs.Asking.{serial_told};

use crate::category::Category;
use crate::room::Room;
use cct_model_wire::{BROADCAST, CheckKind, Reply, ReplyForm, Request};
use cct_msg::encode_request;
use cct_wire::{Link, bare_after_echo};

/// How often a question is asked at most.
pub const TRIES: u8 = 3;

/// Asks a request of an address until the reply in the form that is wanted is heard, or so many
/// times.
fn question<L: Link>(
    link: &mut L,
    kind: CheckKind,
    addr: u8,
    request: Request,
    form: ReplyForm,
    tries: u8,
    room: &mut Room,
)
    requires known { is_identity request ≡ true }
    requires some { 1 ≤ tries }
    requires few { tries ≤ TRIES }
    ensures asked { Asked L.gives tries (ask kind addr request) (reply_to kind addr request form) link.old
        (reply_to kind addr request form room.new.heard.items) link.new }
    ensures inquires { (first : L) → Inquires L.gives first link.old →
        Inquires L.gives first link.new }
    ensures sent { room.new.sent.items ≡ ask kind addr request }
{
    encode_request(kind, addr, &request, &mut room.sent);
    for _ in 0..tries {
        if is_answered(link, kind, addr, form, room) {
            return;
        }
    }
}

/// Sends what is in the room, and says whether the reply in the form that is wanted is heard.
fn is_answered<L: Link>(
    link: &mut L,
    kind: CheckKind,
    addr: u8,
    form: ReplyForm,
    room: &mut Room,
) -> bool
    ensures gives { L.gives link.old room.old.sent.items room.new.heard.items link.new }
    ensures sent { room.new.sent.items ≡ room.old.sent.items }
    ensures answered { result ≡ is_some (got kind addr form room.new.sent.items
        room.new.heard.items) }
{
    room.exchange(kind, link);
    room.reply(kind, addr, form).is_some()
}

/// The serial number that the device at an address gives under a check, asked so many times at
/// most.
pub fn serial_of<L: Link>(
    link: &mut L,
    kind: CheckKind,
    addr: u8,
    tries: u8,
    room: &mut Room,
) -> Option<u32>
    requires some { 1 ≤ tries }
    requires few { tries ≤ TRIES }
    ensures asks { Asks L.gives tries kind addr request.SerialNumber form.Serial serial_told
        link.old result link.new }
    ensures inquires { (first : L) → Inquires L.gives first link.old →
        Inquires L.gives first link.new }
{
    question(
        link,
        kind,
        addr,
        Request::SerialNumber,
        ReplyForm::Serial,
        tries,
        room,
    );
    match room.reply(kind, addr, ReplyForm::Serial) {
        Some(Reply::Serial { serial }) => Some(serial),
        _ => None,
    }
}

/// The category that the device at an address gives under a check, asked so many times at most.
pub fn category_of<L: Link>(
    link: &mut L,
    kind: CheckKind,
    addr: u8,
    tries: u8,
    room: &mut Room,
) -> Option<Category>
    requires some { 1 ≤ tries }
    requires few { tries ≤ TRIES }
    ensures asks { Asks L.gives tries kind addr request.Category form.Text category_told link.old
        result link.new }
    ensures inquires { (first : L) → Inquires L.gives first link.old →
        Inquires L.gives first link.new }
{
    question(
        link,
        kind,
        addr,
        Request::Category,
        ReplyForm::Text,
        tries,
        room,
    );
    match room.reply(kind, addr, ReplyForm::Text) {
        Some(Reply::Text { text }) => Some(Category::of(text)),
        _ => None,
    }
}

/// The identification of the coin of a place that the device at an address gives under a check,
/// asked so many times at most.
pub fn coin_id_of<L: Link>(
    link: &mut L,
    kind: CheckKind,
    addr: u8,
    place: u8,
    tries: u8,
    room: &mut Room,
) -> Option<[u8; 6]>
    requires some { 1 ≤ tries }
    requires few { tries ≤ TRIES }
    ensures asks { Asks L.gives tries kind addr (request.CoinId place) form.CoinId id_told link.old
        result link.new }
    ensures inquires { (first : L) → Inquires L.gives first link.old →
        Inquires L.gives first link.new }
{
    question(
        link,
        kind,
        addr,
        Request::CoinId { place },
        ReplyForm::CoinId,
        tries,
        room,
    );
    match room.reply(kind, addr, ReplyForm::CoinId) {
        Some(Reply::CoinId { id }) => Some(id),
        _ => None,
    }
}

/// Whether the device at an address acknowledges one of so many polls under a check.
pub fn is_there<L: Link>(
    link: &mut L,
    kind: CheckKind,
    addr: u8,
    tries: u8,
    room: &mut Room,
) -> bool
    requires some { 1 ≤ tries }
    requires few { tries ≤ TRIES }
    ensures asks { Asks L.gives tries kind addr request.SimplePoll form.Ack is_some link.old result
        link.new }
    ensures inquires { (first : L) → Inquires L.gives first link.old →
        Inquires L.gives first link.new }
{
    question(
        link,
        kind,
        addr,
        Request::SimplePoll,
        ReplyForm::Ack,
        tries,
        room,
    );
    room.reply(kind, addr, ReplyForm::Ack).is_some()
}

/// Polls all devices under a check until the echo is good, three times at most. The addresses that
/// answer, bare bytes, are what follows the echo of what is in the room then.
pub fn poll_all<L: Link>(link: &mut L, kind: CheckKind, room: &mut Room)
    ensures asked { Asked L.gives 3 (ask kind BROADCAST request.AddressPoll) (answers_to_all kind)
        link.old (answers_to_all kind room.new.heard.items) link.new }
    ensures inquires { (first : L) → Inquires L.gives first link.old →
        Inquires L.gives first link.new }
    ensures sent { room.new.sent.items ≡ ask kind BROADCAST request.AddressPoll }
{
    encode_request(kind, BROADCAST, &Request::AddressPoll, &mut room.sent);
    for _ in 0..TRIES {
        if is_echoed(link, kind, room) {
            return;
        }
    }
}

/// Sends what is in the room, and says whether the echo is good.
fn is_echoed<L: Link>(link: &mut L, kind: CheckKind, room: &mut Room) -> bool
    ensures gives { L.gives link.old room.old.sent.items room.new.heard.items link.new }
    ensures sent { room.new.sent.items ≡ room.old.sent.items }
    ensures echoed { result ≡ is_some (after_echo room.new.sent.items room.new.heard.items) }
{
    room.exchange(kind, link);
    bare_after_echo(room.sent.as_slice(), room.heard.as_slice()).is_ok()
}
