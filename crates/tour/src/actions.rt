use super::zones::{Zone, read_zone, write_zone};
use layouts::{Layout, Value};
use memory::{Host, Right};
use std::fmt::Display;

// What a call gave, or why it gave nothing.
fn tell_value<T: Display + Drop, E: Display + Drop>(
    rt: &impl Print,
    call: impl Display + Drop,
    answer: Result<T, E>,
) -> anyhow::Result<()> {
    match answer {
        Ok(value) => println!(rt; "  {call}: {value}")?,
        Err(error) => println!(rt; "  {call}: {error}")?,
    }
    Ok(())
}

// What a call that gives nothing back answered.
fn tell<E: Display + Drop>(
    rt: &impl Print,
    call: impl Display + Drop,
    answer: Result<(), E>,
) -> anyhow::Result<()> {
    tell_value(rt, call, answer.map(|()| "done"))
}

fn look<H: Host>(rt: &impl Print, host: &mut H, a: u32) -> anyhow::Result<()> {
    tell_value(rt, format_args!("look at {a}"), host.look(a))
}

fn put<H: Host>(rt: &impl Print, host: &mut H, a: u32, word: u32) -> anyhow::Result<()> {
    match host.put(a, word) {
        Ok(()) => println!(rt; "  put {word} at {a}: done")?,
        Err(denied) => println!(rt; "  put at {a}: {denied}")?,
    }
    Ok(())
}

// Writes a zone's record and prints its words.
fn put_zone<H: Host, L: Layout>(
    rt: &impl Print,
    host: &mut H,
    layout: &L,
    zone: Zone,
) -> anyhow::Result<()> {
    let Zone { at, tariff, .. } = zone;
    match write_zone(host, layout, zone) {
        Ok(()) => println!(rt; "  zone with tariff {tariff} written at {at}")?,
        Err(denied) => println!(rt; "  zone at {at}: {denied}")?,
    }
    for a in at..at.saturating_add(3) {
        look(rt, host, a)?;
    }
    Ok(())
}

// Reads a zone's record back and compares it with what was written.
fn compare_zone<H: Host, L: Layout>(
    rt: &impl Print,
    host: &mut H,
    layout: &L,
    zone: Zone,
) -> anyhow::Result<()> {
    let Zone { at, around, tariff } = zone;
    match read_zone(host, layout, at) {
        Ok(found) => {
            let equal = found == (around, Value::Number(tariff));
            println!(rt; "  zone at {at} read back: the record with tariff {tariff}: {equal}")?;
        }
        Err(denied) => println!(rt; "  zone at {at}: {denied}")?,
    }
    Ok(())
}

// Lowers rights, meets the faults, goes by the second view, and raises the rights again.
fn rights<H: Host>(rt: &impl Print, host: &mut H) -> anyhow::Result<()> {
    tell(rt, "page 0 lowered to none", host.prot1(0, Right::None))?;
    tell(
        rt,
        "pages 1 to 2 lowered to read",
        host.protn(1, 2, Right::Read),
    )?;
    tell(rt, "an empty run lowered", host.protn(9, 0, Right::None))?;
    tell(rt, "pages 7 to 8 lowered", host.protn(7, 2, Right::None))?;
    look(rt, host, 30)?;
    tell_value(rt, "the same by the second view", host.see(30))?;
    look(rt, host, 32)?;
    put(rt, host, 32, 41)?;
    tell(rt, "41 set there by the second view", host.set(32, 41))?;
    look(rt, host, 32)?;
    tell(rt, "page 0 raised to read", host.unprot(0, Right::Read))?;
    look(rt, host, 30)?;
    put(rt, host, 30, 0)?;
    tell(rt, "page 1 raised to all", host.unprot(1, Right::All))?;
    put(rt, host, 32, 43)?;
    look(rt, host, 256)?;
    tell(rt, "page 8 raised", host.unprot(8, Right::All))?;
    tell(rt, "page 0 raised to all", host.unprot(0, Right::All))?;
    tell(rt, "page 2 raised to all", host.unprot(2, Right::All))
}

// What the layout makes of the values and shapes at its edges.
fn edges<L: Layout>(rt: &impl Print, layout: &L) -> anyhow::Result<()> {
    tell_value(rt, "header of 1 and 1 slots", layout.header(1, 1))?;
    tell_value(rt, "header of 200 and 55 slots", layout.header(200, 55))?;
    tell_value(rt, "header of 200 and 56 slots", layout.header(200, 56))?;
    let header = layout.header(1, 1).unwrap_or(0);
    tell_value(
        rt,
        "word of number 5",
        layout.pack(header, 1, Value::Number(5)),
    )?;
    tell_value(
        rt,
        "word of number 2147483647",
        layout.pack(header, 1, Value::Number(2147483647)),
    )?;
    tell_value(
        rt,
        "word of number 2147483648",
        layout.pack(header, 1, Value::Number(2147483648)),
    )?;
    match layout.slots(4) {
        Some(slots) => println!(rt; "  word 4 is a header of {slots} slots")?,
        None => println!(rt; "  word 4 is no header")?,
    }
    Ok(())
}

/// Writes records of zones in a layout into a host's pages, tries its rights, and reads the records back.
pub fn show<H: Host, L: Layout>(rt: &impl Print, host: &mut H, layout: &L) -> anyhow::Result<()> {
    println!(rt;
        "  {} pages of {} words, layout {}",
        host.page_count(),
        host.page_size(),
        layout.number()
    )?;
    let city = Zone {
        at: 30,
        around: Value::Nil,
        tariff: 19,
    };
    let market = Zone {
        at: 60,
        around: Value::Reference(30),
        tariff: 7,
    };
    put_zone(rt, host, layout, city)?;
    put_zone(rt, host, layout, market)?;
    rights(rt, host)?;
    let raised = Zone { tariff: 21, ..city };
    put_zone(rt, host, layout, raised)?;
    compare_zone(rt, host, layout, raised)?;
    compare_zone(rt, host, layout, market)?;
    compare_zone(rt, host, layout, city)?;
    edges(rt, layout)
}
