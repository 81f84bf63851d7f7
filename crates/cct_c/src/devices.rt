//! Device cores after handles. Each call takes a handle, and gives it back through `back` as it
//! was.

use crate::codes::{BAD_HANDLE, NO_MEMORY, OK};
use crate::handle::{LhHandle, LhOpaque};
use crate::held::Held;
use crate::kept::Kept;
use crate::settings::{LhSettings, fault_of, setup_of};
use std::alloc::Global;

/// Keeps settings after a handle.
#[unsafe(no_mangle)]
pub extern "C" fn lh_raw_settings_new(
    alloc: Global,
    settings: &LhSettings,
    out: &mut *mut LhOpaque,
) -> u32 {
    let setup = match setup_of(settings) {
        Ok(setup) => setup,
        Err(code) => return code,
    };
    match fault_of(&setup) {
        OK => hand_out(alloc, Kept::Device(Held::Settings(setup)), out),
        code => code,
    }
}

/// Makes a device core as after power-up. It borrows the settings for as long as it is there.
#[unsafe(no_mangle)]
pub extern "C" fn lh_raw_core_new(
    alloc: Global,
    settings: LhHandle,
    out: &mut *mut LhOpaque,
) -> u32 {
    let kept: &'static Kept = Box::leak(settings.into_box());
    let Kept::Device(Held::Settings(setup)) = kept else {
        return BAD_HANDLE;
    };
    match fault_of(setup) {
        OK => match Held::device(alloc, setup) {
            Ok(core) => hand_out(alloc, Kept::Device(core), out),
            Err(_) => NO_MEMORY,
        },
        code => code,
    }
}

/// A box goes to the caller as its pointer.
pub(crate) fn hand_out(alloc: Global, kept: Kept, out: &mut *mut LhOpaque) -> u32 {
    match Box::new(alloc, kept) {
        Ok(kept) => {
            *out = Box::into_raw(kept).cast::<LhOpaque>();
            OK
        }
        Err(_) => NO_MEMORY,
    }
}

/// One byte more is heard.
#[unsafe(no_mangle)]
pub extern "C" fn lh_raw_core_byte(core: LhHandle, byte: u8, back: &mut *mut LhOpaque) -> u32 {
    let mut kept = core.into_box();
    let code = match &mut *kept {
        Kept::Device(held) => held.byte(byte),
        _ => BAD_HANDLE,
    };
    *back = Box::into_raw(kept).cast::<LhOpaque>();
    code
}

/// A gap: the device acts on what the bytes since the last one ask, and answers to the front of
/// `out`.
#[unsafe(no_mangle)]
pub extern "C" fn lh_raw_core_gap(
    core: LhHandle,
    out: &mut [u8],
    written: &mut usize,
    back: &mut *mut LhOpaque,
) -> u32 {
    let mut kept = core.into_box();
    let code = match &mut *kept {
        Kept::Device(held) => held.answer(out, written),
        _ => BAD_HANDLE,
    };
    *back = Box::into_raw(kept).cast::<LhOpaque>();
    code
}

/// A coin or a bill of a place is put in.
#[unsafe(no_mangle)]
pub extern "C" fn lh_raw_core_put(
    core: LhHandle,
    place: u8,
    path: &mut u8,
    back: &mut *mut LhOpaque,
) -> u32 {
    let mut kept = core.into_box();
    let code = match &mut *kept {
        Kept::Device(held) => held.put(place, path),
        _ => BAD_HANDLE,
    };
    *back = Box::into_raw(kept).cast::<LhOpaque>();
    code
}

/// An object that is no coin is put in.
#[unsafe(no_mangle)]
pub extern "C" fn lh_raw_core_alien(core: LhHandle, back: &mut *mut LhOpaque) -> u32 {
    let mut kept = core.into_box();
    let code = match &mut *kept {
        Kept::Device(held) => held.put_alien(),
        _ => BAD_HANDLE,
    };
    *back = Box::into_raw(kept).cast::<LhOpaque>();
    code
}

/// A coin falls out of a hopper.
#[unsafe(no_mangle)]
pub extern "C" fn lh_raw_core_fall(core: LhHandle, back: &mut *mut LhOpaque) -> u32 {
    let mut kept = core.into_box();
    let code = match &mut *kept {
        Kept::Device(held) => held.fall(),
        _ => BAD_HANDLE,
    };
    *back = Box::into_raw(kept).cast::<LhOpaque>();
    code
}

/// A coin is stuck in a hopper.
#[unsafe(no_mangle)]
pub extern "C" fn lh_raw_core_jam(core: LhHandle, back: &mut *mut LhOpaque) -> u32 {
    let mut kept = core.into_box();
    let code = match &mut *kept {
        Kept::Device(held) => held.jam(),
        _ => BAD_HANDLE,
    };
    *back = Box::into_raw(kept).cast::<LhOpaque>();
    code
}

/// The device starts again as after power-up.
#[unsafe(no_mangle)]
pub extern "C" fn lh_raw_core_reset(core: LhHandle, back: &mut *mut LhOpaque) -> u32 {
    let mut kept = core.into_box();
    let code = match &mut *kept {
        Kept::Device(held) => held.reset(),
        _ => BAD_HANDLE,
    };
    *back = Box::into_raw(kept).cast::<LhOpaque>();
    code
}

/// Frees what a handle holds.
#[unsafe(no_mangle)]
pub extern "C" fn lh_raw_free(handle: LhHandle) {
    let _kept = handle.into_box();
}
