//! The ten minutes of a station (M.540; that they come every four hours is this profile's).
ghost use Rattle.std.specs.Prelude.{◌↔◌, IfSome, IsNone, IsTrue};
ghost use Rattle.nx_station.specs.Slots.{HasNoSlot, IsNextSlot};
ghost use Rattle.nx_station.specs.Sendable.{HasSlots};

use nx_envelope::{LAST_MOMENT, Letter};

/// How many stations have slots, A to X.
const STATIONS: u64 = 24;

/// How many seconds a slot has.
const SLOT: u64 = 600;

/// After how many seconds the slots of all stations begin anew.
const ROUND: u64 = STATIONS * SLOT;

/// Whether a station has slots: Y and Z have none.
pub(crate) fn has_slots(station: Letter) -> bool
    ensures { IsTrue result ↔ HasSlots station.byte }
{
    u64::from(station.byte() - b'A') < STATIONS
}

/// The moment at which the station's next slot begins, in seconds since 1970-01-01 00:00:00 UTC:
/// the least that is not before the moment. None for Y and Z, which have no slots, and where it
/// would pass the last moment.
pub fn next_slot(station: Letter, moment: u64) -> Option<u64>
    ensures next { IfSome result (IsNextSlot station.byte moment) }
    ensures none { IsNone result → HasNoSlot station.byte moment }
{
    if !has_slots(station) || moment > LAST_MOMENT {
        return None;
    }
    let first = SLOT * u64::from(station.byte() - b'A');
    let rounds = moment.saturating_sub(first).div_ceil(ROUND);
    let slot = first + ROUND * rounds;
    if slot > LAST_MOMENT {
        return None;
    }
    Some(slot)
}
