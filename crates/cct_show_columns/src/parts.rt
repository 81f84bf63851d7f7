//! The parts that several lines have (`docs/TRANSCRIPT.md`, `docs/SCRIPT.md`): records, commands
//! and reasons. `form` says how a table is read.

/// The records.
pub(crate) const RECORDS: &str = "\
broken {address} {mask} {counter} {lost} {accepts} {coins}|
closed {order_id} {paid} {unpaid}|
epoch {address} {mask} {accepts}|
epochend {address}|
odd {order_id} {life_before} {life_after}|
opened {order_id} {address} {count} {life}|
reading {address} {counter} {lost} {accepts} {coins}|
sold {sale_id} {price}|";

/// The commands, as the host takes them.
pub(crate) const COMMANDS: &str = "\
halt {address}|the host is going to stop the payout of hopper {address}
ident {address}|the host is going to ask device {address} what it is
path {address} {place} {path}|the host is going to set path {path} for place {place} of acceptor {address}; place 0 is the default path
pay {address} {order_id} {count}|the host is going to pay {count} coin(s) from hopper {address}, as order {order_id}
round {address}|the host is going to read acceptor {address}
route {address} {way}|the host is going to route the bill that acceptor {address} holds: way {way}, of which 1 stacks it and 0 gives it back
scan|the host is going to look who is on the line
settle {address}|the host is going to close the open order of hopper {address}
start {address} {mask}|the host is going to reset acceptor {address}, and to let it take the places of mask {mask}
stop {address}|the host is going to read acceptor {address}, and to inhibit it
vend {sale_id} {price}|the host is going to put sale {sale_id}, at {price}";

/// The reasons for which a command is refused.
pub(crate) const REASONS: &str = "\
busy|
epochruns|
journalfull {rest..}|
nodevice|
noepoch|
noorder|
nopayout|
novalue {place}|
oldid {last_id}|
orderopen {open_order}|
othercoin|refused, since the acceptor has another coin at a place of the mask than the setup says
otherserial|refused, since the hopper has another serial number than the setup says
short {available}|
wrongkind|";
