//! The lines that the programs write, in alphabetical order (`docs/TRANSCRIPT.md`, `docs/LIVE.md`,
//! `docs/PROBE.md`), but for those that have a record or a command after their first word; and the
//! lines of a setup and of a capture (`docs/SCRIPT.md`, `docs/AUDIT.md`). `form` says how a table
//! is read.

/// The table in which a line stands, if it is in one.
pub(crate) fn lines_with(line: &str) -> &'static str {
    match line.as_bytes() {
        [b'a'..=b'c', ..] => A_TO_C,
        [b'd'..=b'g', ..] => D_TO_G,
        [b'h'..=b'n', ..] => H_TO_N,
        [b'o'..=b'r', ..] => O_TO_R,
        _ => S_TO_Z,
    }
}

/// The sums of a load.
pub(crate) const LOAD_SUMS: &str = "\
accepted {count}|{count} coin(s) came in
closed {count}|{count} order(s) were closed
fell {count}|{count} coin(s) fell out of the hopper
lost {count}|{count} coin(s) are told as lost
posted {count}|{count} coin(s) are posted
steps {count}|{count} line(s) were played";

const A_TO_C: &str = "\
accepted {address} {place} {path}|acceptor {address} took a coin of place {place}, by path {path}
acceptor {address} {check_kind} {serial} {accepts}|the setup has a coin acceptor at {address}
adopted|from now on the journal has the new setup
alien {address}|another object, no coin, fell into acceptor {address}
balance {available} {reserved} {paid_amount} {sold}|
begin|all devices are named
bills {address} {check_kind} {serial} {accepts}|the setup has a bill acceptor at {address}
broke {address}|
broken {address} buffer {first_tap} {last_tap}|acceptor {address} had events in its buffer with event counter 0, by taps {first_tap} and {last_tap}
broken {address} mask {first_tap} {last_tap}|acceptor {address} had another inhibit mask than the one it was given, by taps {first_tap} and {last_tap}
broken {address} reset {first_tap} {last_tap}|acceptor {address} let money in after a reset, before it was given a mask, by taps {first_tap} and {last_tap}
broken {address} serial {first_tap} {last_tap}|hopper {address} showed another serial number than before, or took a dispense request under another, by taps {first_tap} and {last_tap}
broken {address} enable {first_tap} {last_tap}|hopper {address} took a dispense request after a reset or when disabled, before it was enabled, by taps {first_tap} and {last_tap}
broken {address} life {first_tap} {last_tap}|the life count of hopper {address} rose by more than could fall or by less than was paid, by taps {first_tap} and {last_tap}
broken {address} counter {first_tap} {last_tap}|the event counter of hopper {address} fits neither the dispense requests since, nor those since a reset, by taps {first_tap} and {last_tap}
broken {address} alone {first_tap} {last_tap}|device {address} was asked and another one answered, by taps {first_tap} and {last_tap}
broken {address} {premise} {trial}|the premise {premise} is broken at {address}, in trial {trial}: the next line shows it
change no {reason}|
change ok {first_order} {amount}|
clean {address}|the round at acceptor {address} is over: nothing new came in
closed {address}|the job at hopper {address} is over: its order is closed
crash {records}|";

const D_TO_G: &str = "\
device {address} absent|device {address} was silent three times
device {address} coin {place} {coin}|acceptor {address} has {coin} at place {place}, and the setup says another coin
device {address} kind {category..}|the category of device {address} is {category}, and the setup says another kind
device {address} serial {serial}|the serial number of device {address} is {serial}, and the setup says another one
device {address} {job} {mask} {order_id}|device {address}: its job is {job}, the mask of its epoch {mask}, its open order {order_id}
diskfault|the disk failed: the record that was being put stands there, or it does not
disksize {number}|the file has {number} byte(s), and is no journal of this program
do {address} {rest..}|a person is asked to do this at device {address}
doubt {address} {first_tap} {last_tap}|
end|nothing comes after this
epoch {address} {mask} {counter} {accepts}|an epoch of acceptor {address} is running, with mask {mask}; event counter {counter}, accept counter {accepts}
fails {promise} {address} {premise}|the promise on {promise} fails: the premise {premise} is broken at {address}
fault devices {bytes}|
fault host {bytes}|
fault whole {bytes}|
fell {address}|a coin fell out of hopper {address}
fell {address} {count}|by its own counter {count} coin(s) fell out of hopper {address}
fell {address} {first_tap} {last_tap} {count}|
forged {address}|
found {records} {orders} {epochs}|the journal was there: {records} record(s), {orders} open order(s), {epochs} running epoch(s)";

const H_TO_N: &str = "\
held {address} {place}|bill acceptor {address} holds a bill of place {place}
holds {promise}|the promise on {promise} holds: each of its premises was kept
hopper {address} {check_kind} {serial} {life} {value}|the setup has a hopper at {address}, whose coins are worth {value}
idle {address}|no job is at {address}
inhibited {address} {place}|acceptor {address} gave back what fell in, of place {place}: that is inhibited, or another bill is held
inuse journal|another process uses the journal, so nothing was done
inuse port|another process uses the port, so nothing was done
jammed {address}|a coin stuck in hopper {address}, and what was left stays unpaid
journal alien|there is no journal
journal bad {record_index}|record {record_index} of the journal cannot be read, or does not follow those before it
journal lost {records} {count}|the journal has {records} record(s), and {count} were put
kept {address} {premise}|the premise {premise} is kept at {address}
last {last_id}|the greatest id that was used is {last_id}; 0 is none
lineback|the port works again
linefault|the port failed
listed {list}|the scan is over; who answered: {list}
load {number} {count}|a load of {count} round(s), drawn from {number}
made {records} {orders} {epochs}|a new journal was made
moved {address}|
noanswer {address}|
nofall {address}|no coin fell out of hopper {address}: none is left to pay
nojam {address}|no coin stuck in hopper {address}: none is left to pay
notblank {number}|the file is used, and stays as it was: byte {number} is not 0
noterminal|the port is no terminal";

const O_TO_R: &str = "\
oddlife {address}|
open {promise} {address} {premise}|the promise on {promise} is open: the premise {premise} was not tried at {address}
order {order_id} closed {paid} {unpaid}|order {order_id} is closed: {paid} of its coins fell, and {unpaid} did not
order {order_id} odd {paid}|order {order_id} is closed with life counts that do not fit it: by them {paid} coin(s) fell
order {order_id} open {address} {count}|order {order_id} is open, for {count} coin(s) of hopper {address}
order {order_id} open {address} {count} {life}|order {order_id} is open, for {count} coin(s) of hopper {address}, whose life count was {life}
order {order_id} unknown|no record since the journal last turned opens or closes order {order_id}
order {order_id} unread|the journal could not be read
othersetup {address} {reason}|the journal has another setup: at {address} they differ first ({reason})
pathset {address} {place} {path}|acceptor {address} has path {path} for place {place}; place 0 is the default path
pays {address} {count}|up to {count} coin(s) are going to be ordered of hopper {address}
posted {address}|the round at acceptor {address} is over: its reading was put
protocol {number}|version {number} of the lines
quiet {address} {first_tap} {last_tap} {coins}|acceptor {address}, from tap {first_tap} to tap {last_tap}, if it was not reset between: it accepted {coins}
readfault|reading failed
refused {number} again|line {number} is refused: this was said before
refused {number} cut|line {number} is refused: the input ends within it
refused {number} device|line {number} is refused: no such device is there, or it may not be added
refused {number} form|line {number} is refused: it is in no form of its word
refused {number} lines|line {number} is refused: there are too many lines
refused {number} long|line {number} is refused: it is too long
refused {number} trailing|line {number} is refused: it stands after the end
refused {number} word|line {number} is refused: its first field is no word there
reset {address}|device {address} started again
room {records}|{records} record(s) more find room
routed {address}|bill acceptor {address} stacked the bill, or gave it back, as it was told
routeunsure {address}|";

const S_TO_Z: &str = "\
serve idle|
serve odd {order_id}|
serve wait {address}|
served {amount}|
setupbad {number}|line {number} of the setup beside the journal cannot be read
setupkept|the setup was written beside the journal
short {paid_amount} {owed}|
since {address} {posted} {lost} {paid}|since the journal last turned, at device {address}: {posted} posted, {lost} lost, {paid} paid
sold|the sale is over: its record was put
started {address}|acceptor {address} is started: it acknowledged its mask
state unread|the journal could not be read
stock {address} {count}|
stopped {address}|acceptor {address} is stopped
sure {address} {first_tap} {last_tap} {coins}|
tap {sent} {heard}|
texts {address} {rest..}|what device {address} says of itself
time {address} {longest} {mean}|device {address} took {mean} ms to answer in the mean, and {longest} at most
told {address}|device {address} said what it is
took {address} {count}|by its own counter {count} coin(s) came into acceptor {address}
total {posted} {lost} {paid} {unpaid} {sold}|
trial {address} {trial}|trial {trial} begins at {address}; 0 is the line
unquiet {address} {counter}|
unsent {address} {sent}|the port failed before all of this was written
unset|the port is not set up, or what is sent does not come back
unsure {address}|
untried {address} {premise} {reason}|the premise {premise} was not tried at {address}: {reason}
upgrade current|the journal has the newest version already
upgrade epoch {address}|the journal was not brought forward: acceptor {address} is started
upgrade room {records}|the journal was not brought forward: no half of the file is free of its {records} record(s)
upgraded {records}|the journal was brought forward, with {records} record(s)
value {address} {place} {value} {coin}|place {place} of acceptor {address} is {coin}, worth {value}
watch {address} {check_kind} {category}|the audit watches {address}, a device of kind {category}
watch {address} {check_kind} {category} premises|the audit watches {address}, a device of kind {category}, for premises that it breaks
watch {address} {check_kind} {category} quiet|the audit watches {address}, a device of kind {category} that is taken to be reset only where the log shows it
wire {address} {sent} {heard}|
words|the words of the command line name nothing that the program does";
