//! How the carry of records stands to the list of them. Where records follow one another, either
//! shows the same of one record more, so a host that starts from a carry knows what one knows that
//! starts from the whole list.
ghost use Rattle.std.specs.Prelude.{◌≡◌, ℕ, ◌+◌, ◌≤◌, ◌==◌, ◌++◌, true, false, is_some, All, List};
ghost use Rattle.std.specs.Prelude.{[], ◌∷◌, length, map, reverse, Option, Some, slice_get};
ghost use Rattle.std.specs.List.{list_any};
ghost use Rattle.std.specs.Option.{option_map_or};
ghost use Rattle.cct_model.specs.terms.device.Setup.{Setup};
ghost use Rattle.cct_model.specs.terms.device.TheConstants.{DEVICES};
ghost use Rattle.cct_model.specs.lines.record.Record.{Record};
ghost use Rattle.cct_model.specs.declared.judging.OpenOrder.{OpenOrder};
ghost use Rattle.cct_model.specs.lines.carry.Carry.{Carry};
ghost use Rattle.cct_model.specs.Carried.{IsRightly, empty_carry};
ghost use Rattle.cct_model.specs.Carry.{IsSafe, all_follow_carry, available_held, carry, carry_of};
ghost use Rattle.cct_model.specs.Carry.{carry_over, carry_with, epoch_held, follows_carry};
ghost use Rattle.cct_model.specs.Carry.{order_held, order_with, reserved_held};
ghost use Rattle.cct_model.specs.Following.{all_follow, follows};
ghost use Rattle.cct_model.specs.Money.{available_beside, reserved_in};
ghost use Rattle.cct_model.specs.Records.{epoch_in, is_open, order_in, order_named};
ghost use Rattle.cct_model.specs.Setup.{IsSoundSetup};
ghost use Rattle.cct_record.specs.Body.{InRange};
ghost use Rattle.cct_journal_carry.specs.Scope.{EachFollowing};

/// The carry of no record is empty.
#[tactic(auto, using(crate::proofs::Resumed::carry_first, crate::proofs::Resumed::carry_of_none))]
pub fn the_carry_of_no_record_is_empty()
    ensures newest_first { (setup : Setup) → carry setup [] ≡ empty_carry }
    ensures oldest_first { (setup : Setup) → carry_of setup [] ≡ empty_carry }
{}

/// Where records follow one another, their carry gives what they give: the epoch and the open order
/// at any address, which orders are open by their ids and what each of these is, what is reserved,
/// and what is available beside anything.
pub fn a_carry_tells_what_its_records_tell()
    ensures epochs { EachFollowing (λ setup before. (addr : ℕ)
        → epoch_held addr (carry setup before) ≡ epoch_in addr before) }
    ensures orders { EachFollowing (λ setup before. (addr : ℕ)
        → order_held addr (carry setup before) ≡ order_in addr before) }
    ensures opened { EachFollowing (λ setup before. (id : ℕ)
        → is_some (order_with id (carry setup before)) ≡ is_open id before) }
    ensures named { EachFollowing (λ setup before. (id : ℕ) → is_open id before ≡ true
        → order_with id (carry setup before) ≡ order_named id before) }
    ensures reserved { EachFollowing (λ setup before.
        reserved_held setup (carry setup before) ≡ reserved_in setup before) }
    ensures available { EachFollowing (λ setup before. (beside : ℕ)
        → available_held setup (carry setup before) beside ≡ available_beside setup before beside) }
{}

/// Where records follow one another, a record follows their carry exactly where it follows them.
pub fn a_record_follows_a_carry_as_its_records()
    ensures { EachFollowing (λ setup before. (r : Record)
        → follows_carry setup (carry setup before) r ≡ follows setup before r) }
{}

/// By a record that follows, the carry goes on to that of all records with this one.
pub fn a_carry_goes_on_by_one_record()
    ensures { EachFollowing (λ setup before. (r : Record) → follows setup before r ≡ true
        → carry_with setup r (carry setup before) ≡ carry setup (r ∷ before)) }
{}

/// A start from the carry of records that follow one another, and one from the whole list of them,
/// agree on more records, which stand here oldest first: all of them follow by both, or by neither.
/// Where they do, the carry is then that of the whole list, and one record more follows by both, or
/// by neither. So both name the same record as the first that doesn't follow.
pub fn a_start_from_a_carry_is_one_from_its_records()
    ensures follow { EachFollowing (λ setup before. (later : List Record)
        → all_follow_carry setup (carry setup before) later ≡ all_follow setup (reverse later ++ before)) }
    ensures goes_on { EachFollowing (λ setup before. (later : List Record)
        → all_follow_carry setup (carry setup before) later ≡ true
        → carry_over setup (carry setup before) later ≡ carry setup (reverse later ++ before)) }
    ensures next { EachFollowing (λ setup before. (first : List Record) (r : Record)
        → all_follow_carry setup (carry setup before) first ≡ true
        → follows_carry setup (carry_over setup (carry setup before) first) r
        ≡ follows setup (reverse first ++ before) r) }
{}

/// The same of lists of records that are both oldest first.
pub fn a_carry_goes_on_by_more_records()
    ensures follow { (setup : Setup) (records later : List Record) → IsSoundSetup setup
        → all_follow setup (reverse records) ≡ true
        → all_follow_carry setup (carry_of setup records) later ≡ all_follow setup (reverse (records ++ later)) }
    ensures goes_on { (setup : Setup) (records later : List Record) → IsSoundSetup setup
        → all_follow setup (reverse (records ++ later)) ≡ true
        → carry_over setup (carry_of setup records) later ≡ carry_of setup (records ++ later) }
{}

/// Where records follow one another, the orders that their carry has at the addresses of the
/// devices, in the setup's own order, are the open orders of these devices. An order is open by its
/// id where one of them has it, and each of them is the one that was opened last with its id.
pub fn the_orders_of_a_carry_are_those_of_the_devices()
    ensures at_devices { EachFollowing (λ setup before.
        map (λ d. order_held d.addr (carry setup before)) setup.devices
        ≡ map (λ d. order_in d.addr before) setup.devices) }
    ensures opened { EachFollowing (λ setup before. (id : ℕ)
        → is_open id before
        ≡ list_any (λ (owed : Option OpenOrder). option_map_or (λ (o : OpenOrder). o.id == id) owed false)
        (map (λ d. order_held d.addr (carry setup before)) setup.devices)) }
    ensures named { EachFollowing (λ setup before. (place : ℕ) (o : OpenOrder)
        → slice_get (map (λ d. order_held d.addr (carry setup before)) setup.devices) place ≡ Some (Some o)
        → order_named o.id before ≡ Some o) }
{}

/// The carry of records that follow one another and can be spelt, in a setup with no more devices
/// than a script can say, may be that of so many records, and fits the setup.
pub fn the_carry_of_records_is_safe()
    ensures { EachFollowing (λ setup before. length setup.devices ≤ DEVICES → All InRange before
        → IsSafe setup (length before) (carry setup before)) }
{}

/// A carry that may be that of no record is the empty one.
pub fn a_carry_of_no_record_is_empty()
    ensures { (c : Carry) → IsRightly 0 c → c ≡ empty_carry }
{}

/// A safe carry is safe for one record more with a record that follows, which can be spelt, and
/// also as it is.
pub fn a_safe_carry_goes_on_safely()
    ensures next { (setup : Setup) (many : ℕ) (c : Carry) (r : Record) → IsSoundSetup setup
        → length setup.devices ≤ DEVICES → IsSafe setup many c → follows_carry setup c r ≡ true → InRange r
        → IsSafe setup (many + 1) (carry_with setup r c) }
    ensures more { (setup : Setup) (many : ℕ) (c : Carry) → IsSafe setup many c →
        IsSafe setup (many + 1) c }
{}
