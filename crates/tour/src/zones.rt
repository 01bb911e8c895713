use layouts::{Layout, Value};
use memory::{Denied, Host};

/// A record of a zone: an object with one slot for the zone that it lies in and one for its tariff number.
#[derive(Clone, Copy)]
pub struct Zone {
    /// The address of the record's header.
    pub at: u32,
    /// The zone around it, or nil.
    pub around: Value,
    pub tariff: u32,
}

/// Writes a zone's record, word by word, as far as the pages allow it.
pub fn write_zone<H: Host, L: Layout>(host: &mut H, layout: &L, zone: Zone) -> Result<(), Denied> {
    let header = layout.header(1, 1)?;
    let around = layout.pack(header, 0, zone.around)?;
    let tariff = layout.pack(header, 1, Value::Number(zone.tariff))?;
    host.put(zone.at, header)?;
    host.put(zone.at.saturating_add(1), around)?;
    host.put(zone.at.saturating_add(2), tariff)?;
    Ok(())
}

/// Reads a zone's record back, by the second view.
pub fn read_zone<H: Host, L: Layout>(
    host: &mut H,
    layout: &L,
    at: u32,
) -> Result<(Value, Value), Denied> {
    let header = host.see(at)?;
    let around = host.see(at.saturating_add(1))?;
    let tariff = host.see(at.saturating_add(2))?;
    Ok((
        layout.unpack(header, 0, around),
        layout.unpack(header, 1, tariff),
    ))
}
