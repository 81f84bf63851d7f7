//! The table of coins (ccTalk Generic Specification 4, part 2): headers 231 and 230 set and read
//! the inhibit mask, 228 and 227 the master inhibit, 210 and 209 the sorter path of a coin place,
//! 189 and 188 the default path.
ghost use Rattle.std.specs.Prelude.{◌≡◌, ◌≤◌, ◌↔◌, ◌&&◌, List, [], ◌∷◌, IsErrOf, IsOk, IsTrue};
ghost use Rattle.std.specs.Prelude.{OnErr, not};
ghost use Rattle.cct_model_wire.specs.Setting.{Setting, mask_set, master_set, path_set};
ghost use Rattle.cct_model_wire.specs.Setting.{default_set, is_place, is_path, mask_in};
ghost use Rattle.cct_model_wire.specs.Setting.{is_normal_in, default_in, path_in, accepts_in};
ghost use Rattle.cct_sorter.specs.Table.{Holds};

use cct_model_wire::{COIN_PLACES, PATHS, has_place};
use thiserror::Error;

/// What was set at an acceptor for coins since its last reset.
#[derive(Clone, Copy, PartialEq, Eq)]
pub struct CoinTable {
    mask: u16,
    normal: bool,
    default_path: u8,
    /// The path that was set for each coin place, the first for place 1.
    paths: [Option<u8>; COIN_PLACES],
}

/// A sorter path that wasn't set: the coin place isn't 1 to 16, or the path isn't 1 to 8.
#[derive(Clone, Copy, Debug, Error, PartialEq, Eq)]
#[error("coin place {place} can't have sorter path {path}")]
pub struct PathRefused {
    /// The coin place that was asked for; 0 where the default path was.
    pub place: u8,
    /// The path that was asked for.
    pub path: u8,
}

impl CoinTable {
    /// A table as after a reset: every coin place is inhibited, operation is normal, and the
    /// default path is 1.
    pub fn new() -> CoinTable
        ensures { Holds result [] }
    {
        CoinTable {
            mask: 0,
            normal: true,
            default_path: 1,
            paths: [None; COIN_PLACES],
        }
    }

    /// Whether a coin of a place is accepted.
    pub fn accepts(&self, place: u8) -> bool
        requires low { 1 ≤ place }
        requires high { place ≤ COIN_PLACES }
        ensures { (past : List Setting) → Holds self.now past → result ≡ accepts_in past place }
    {
        has_place(self.mask, place) && self.normal
    }

    /// The sorter path, 1 to 8, by which a coin of a place falls (header 209).
    pub fn path_of(&self, place: u8) -> u8
        requires low { 1 ≤ place }
        requires high { place ≤ COIN_PLACES }
        ensures { (past : List Setting) → Holds self.now past → result ≡ path_in past place }
    {
        self.paths[place as usize - 1].unwrap_or(self.default_path)
    }

    /// The inhibit mask, as header 230 reads it: bit 0 is place 1, and 1 accepts.
    pub fn mask(&self) -> u16
        ensures { (past : List Setting) → Holds self.now past → result ≡ mask_in past }
    {
        self.mask
    }

    /// Whether operation is normal, which is bit 0 of what header 227 reads; else every coin is
    /// inhibited.
    pub fn master(&self) -> bool
        ensures { (past : List Setting) → Holds self.now past → result ≡ is_normal_in past }
    {
        self.normal
    }

    /// The path, 1 to 8, of the coin places for which none was set (header 188).
    pub fn default_path(&self) -> u8
        ensures { (past : List Setting) → Holds self.now past → result ≡ default_in past }
    {
        self.default_path
    }

    /// Sets the inhibit mask (header 231): bit 0 is place 1, and 1 accepts.
    pub fn set_mask(&mut self, mask: u16)
        ensures { (past : List Setting) → Holds self.old past →
            Holds self.new (mask_set mask ∷ past) }
    {
        self.mask = mask;
    }

    /// Sets the master inhibit by the byte of header 228: bit 0 is 1 for normal operation, and 0
    /// inhibits every coin.
    pub fn set_master(&mut self, value: u8)
        ensures { (past : List Setting) → Holds self.old past →
            Holds self.new (master_set value ∷ past) }
    {
        self.normal = value & 1 == 1;
    }

    /// Sets the sorter path of a coin place (header 210), unless the place isn't 1 to 16 or the
    /// path isn't 1 to 8.
    pub fn set_path(&mut self, place: u8, path: u8) -> Result<(), PathRefused>
        ensures holds { (past : List Setting) → Holds self.old past →
            Holds self.new (path_set place path ∷ past) }
        ensures taken { IsOk result ↔ IsTrue (is_place place && is_path path) }
        ensures refused { IsErrOf result (record { place = place; path = path })
            ↔ IsTrue (not (is_place place && is_path path)) }
        // A refused path leaves each setting as it is.
        ensures unchanged { OnErr result (self.new ≡ self.old) }
    {
        if !is_place(place) || !is_path(path) {
            return Err(PathRefused { place, path });
        }
        self.paths[place as usize - 1] = Some(path);
        Ok(())
    }

    /// Sets the path of every coin place for which none is set (header 189), unless it isn't 1 to
    /// 8: the refusal then has place 0.
    pub fn set_default(&mut self, path: u8) -> Result<(), PathRefused>
        ensures holds { (past : List Setting) → Holds self.old past →
            Holds self.new (default_set path ∷ past) }
        ensures taken { IsOk result ↔ IsTrue (is_path path) }
        ensures refused { IsErrOf result (record { place = 0; path = path }) ↔
            IsTrue (not (is_path path)) }
        ensures unchanged { OnErr result (self.new ≡ self.old) }
    {
        if !is_path(path) {
            return Err(PathRefused { place: 0, path });
        }
        self.default_path = path;
        Ok(())
    }

    /// Forgets every setting.
    pub fn reset(&mut self)
        ensures { Holds self.new [] }
    {
        *self = CoinTable::new();
    }
}

/// Whether a coin place is one of an acceptor's: they are numbered from 1.
pub fn is_place(place: u8) -> bool
    ensures { result ≡ is_place place }
{
    1 <= place && place as usize <= COIN_PLACES
}

/// Whether a sorter path is one of an acceptor's: they are numbered from 1.
fn is_path(path: u8) -> bool
    ensures { result ≡ is_path path }
{
    1 <= path && path <= PATHS
}
