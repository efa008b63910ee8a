//! The stations for the rounds of a load.

use crate::plan::LOADED;
use crate::sender::SCID;
use anyhow::Result;
use std::alloc::Global;
use tc_station::Station;

/// The application whose packets are queued.
pub(crate) const APID: u16 = 5;

/// Creates a station with these virtual channels.
pub(crate) fn new_station(alloc: Global, vcids: &[u8]) -> Result<Station> {
    let mut list = Vec::with_capacity(alloc, vcids.len())?;
    for vcid in vcids {
        list.push(LOADED.settings(alloc, *vcid)?)?;
    }
    Ok(Station::new(alloc, SCID, list)?)
}
