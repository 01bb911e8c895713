use super::stories::Story;
use layouts::Layout;
use memory::Host;
use std::alloc::AllocError;

/// The mutator that makes zones. Its register 6 holds nil, and 7 the last tariff number.
pub const MAKER: u32 = 0;

/// The mutator that carries out a rule.
pub const RULE: u32 = 1;

/// A zone's slot for the zone around it.
pub const AROUND: u32 = 0;

/// A zone's slot for its tariff number.
pub const TARIFF: u32 = 1;

/// A zone to be made: the maker's register that is to have it, and the one that has the zone around it.
#[derive(Clone, Copy)]
pub struct NewZone {
    pub purpose: &'static str,
    pub register: u32,
    pub around: u32,
    pub tariff: u32,
}

/// The maker makes a zone.
pub fn make_zone<H: Host, L: Layout>(
    story: &mut Story<H, L>,
    zone: NewZone,
) -> Result<(), AllocError> {
    story.new_object(zone.purpose, MAKER, zone.register, 1, 1)?;
    story.store(
        "the zone around it",
        MAKER,
        zone.register,
        AROUND,
        zone.around,
    )?;
    story.set_number("a tariff number", MAKER, 7, zone.tariff)?;
    story.store("which is the zone's", MAKER, zone.register, TARIFF, 7)?;
    Ok(())
}

/// The maker makes the city, which lies in nothing, and the market in it, in registers 0 and 1.
pub fn make_city<H: Host, L: Layout>(story: &mut Story<H, L>) -> Result<(), AllocError> {
    let city = NewZone {
        purpose: "the maker makes the city",
        register: 0,
        around: 6,
        tariff: 19,
    };
    let market = NewZone {
        purpose: "the maker makes the market",
        register: 1,
        around: 0,
        tariff: 7,
    };
    make_zone(story, city)?;
    make_zone(story, market)
}
