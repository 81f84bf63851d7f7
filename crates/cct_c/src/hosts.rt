//! Hosts after handles. Each call takes a handle, and gives it back through `back` as it was.

use crate::codes::{BAD_HANDLE, NO_MEMORY};
use crate::devices::hand_out;
use crate::handle::{LhHandle, LhOpaque};
use crate::hosted::{Hosted, LhAsk, LhTotals};
use crate::kept::Kept;
use crate::machine::Machine;
use std::alloc::Global;

/// Keeps the devices of a machine after a handle.
#[unsafe(no_mangle)]
pub extern "C" fn lh_raw_machine_new(
    alloc: Global,
    text: &[u8],
    line: &mut u32,
    out: &mut *mut LhOpaque,
) -> u32 {
    match Machine::read(alloc, text, line) {
        Ok(machine) => match Box::new(alloc, machine) {
            Ok(machine) => hand_out(alloc, Kept::Machine(machine), out),
            Err(_) => NO_MEMORY,
        },
        Err(code) => code,
    }
}

/// Starts a host over what its part holds. It borrows the machine for as long as it is there.
#[unsafe(no_mangle)]
pub extern "C" fn lh_raw_host_new(
    alloc: Global,
    machine: LhHandle,
    part: &[u8],
    index: &mut u32,
    out: &mut *mut LhOpaque,
) -> u32 {
    let kept: &'static Kept = Box::leak(machine.into_box());
    let Kept::Machine(machine) = kept else {
        return BAD_HANDLE;
    };
    match Hosted::start(alloc, &**machine, part, index) {
        Ok(hosted) => match Box::new(alloc, hosted) {
            Ok(hosted) => hand_out(alloc, Kept::Host(hosted), out),
            Err(_) => NO_MEMORY,
        },
        Err(code) => code,
    }
}

/// What the program is to do next at an address.
#[unsafe(no_mangle)]
pub extern "C" fn lh_raw_host_ask(
    host: LhHandle,
    address: u8,
    ask: &mut LhAsk,
    out: &mut [u8],
    back: &mut *mut LhOpaque,
) -> u32 {
    let mut kept = host.into_box();
    let code = match &mut *kept {
        Kept::Host(hosted) => hosted.ask(address, ask, out),
        _ => BAD_HANDLE,
    };
    *back = Box::into_raw(kept).cast::<LhOpaque>();
    code
}

/// The call on the part was made.
#[unsafe(no_mangle)]
pub extern "C" fn lh_raw_host_done(host: LhHandle, back: &mut *mut LhOpaque) -> u32 {
    let mut kept = host.into_box();
    let code = match &mut *kept {
        Kept::Host(hosted) => hosted.done(),
        _ => BAD_HANDLE,
    };
    *back = Box::into_raw(kept).cast::<LhOpaque>();
    code
}

/// A call on the part failed.
#[unsafe(no_mangle)]
pub extern "C" fn lh_raw_host_lost(host: LhHandle, back: &mut *mut LhOpaque) -> u32 {
    let mut kept = host.into_box();
    let code = match &mut *kept {
        Kept::Host(hosted) => hosted.lost(),
        _ => BAD_HANDLE,
    };
    *back = Box::into_raw(kept).cast::<LhOpaque>();
    code
}

/// The line was taken.
#[unsafe(no_mangle)]
pub extern "C" fn lh_raw_host_taken(host: LhHandle, back: &mut *mut LhOpaque) -> u32 {
    let mut kept = host.into_box();
    let code = match &mut *kept {
        Kept::Host(hosted) => hosted.taken(),
        _ => BAD_HANDLE,
    };
    *back = Box::into_raw(kept).cast::<LhOpaque>();
    code
}

/// This was heard after the message that was sent.
#[unsafe(no_mangle)]
pub extern "C" fn lh_raw_host_heard(host: LhHandle, bytes: &[u8], back: &mut *mut LhOpaque) -> u32 {
    let mut kept = host.into_box();
    let code = match &mut *kept {
        Kept::Host(hosted) => hosted.heard(bytes),
        _ => BAD_HANDLE,
    };
    *back = Box::into_raw(kept).cast::<LhOpaque>();
    code
}

/// The operator gives a command.
#[unsafe(no_mangle)]
pub extern "C" fn lh_raw_host_command(
    host: LhHandle,
    line: &[u8],
    back: &mut *mut LhOpaque,
) -> u32 {
    let mut kept = host.into_box();
    let code = match &mut *kept {
        Kept::Host(hosted) => hosted.command(line),
        _ => BAD_HANDLE,
    };
    *back = Box::into_raw(kept).cast::<LhOpaque>();
    code
}

/// What the operator has.
#[unsafe(no_mangle)]
pub extern "C" fn lh_raw_host_totals(
    host: LhHandle,
    told: &mut LhTotals,
    back: &mut *mut LhOpaque,
) -> u32 {
    let mut kept = host.into_box();
    let code = match &mut *kept {
        Kept::Host(hosted) => hosted.totals(told),
        _ => BAD_HANDLE,
    };
    *back = Box::into_raw(kept).cast::<LhOpaque>();
    code
}
