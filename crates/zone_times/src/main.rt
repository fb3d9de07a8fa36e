//! Converts civil seconds to instants: `zone_times FOLDER NAME CIVIL..` prints a line for each CIVIL,
//! written as 2026-03-08T02:30:00: its instant in the zone NAME of the zone folder FOLDER, in seconds
//! since 1970-01-01T00:00:00Z, or `none` where the clock skips it. `UTC` is built in. bench/ compares
//! the answers with another program's.
#![tactic(auto)]

ghost use Rattle.std.specs.Prelude.{◌≡◌, ◌≤◌, Some, IfOk, vec_len};
ghost use Rattle.cron_search.specs.CivilTime.{IsCivilSecond};
ghost use Rattle.zone_occ.specs.ZoneText.{utc};
ghost use Rattle.zone_occ.specs.ZoneBytes.{zone_of};

use anyhow::bail;
use expr_grammar::read_expr;
use expressions::{Civil, Expr};
use plain_words::ZoneName;
use std::alloc::Global;
use std::env;
use std::rt::Files;
use zone_occ::{FolderZones, LONGEST_ANSWER, Zone, ZoneAnswer, ZoneFiles, conv};

const UTC: &str = "UTC";

fn read_name(alloc: Global, name: &str) -> anyhow::Result<ZoneName>
    ensures { IfOk result (λ zone. zone ≡ name.now) }
{
    match ZoneName::read(alloc, name.as_bytes()) {
        Ok(name) => Ok(name),
        Err(_) => bail!("no name of a zone"),
    }
}

/// The bytes of a zone of the folder.
fn read_file<R: Files + AllocGlobal + Drop>(
    rt: R,
    folder: String,
    name: &str,
) -> anyhow::Result<Vec<u8>>
    ensures { IfOk result (λ bytes. vec_len bytes ≤ LONGEST_ANSWER) }
{
    let name = read_name(rt.alloc(), name)?;
    let mut zones = FolderZones::new(rt, folder);
    match zones.read(&name) {
        Ok(ZoneAnswer::Present(bytes)) => Ok(bytes.into_vec()),
        Ok(ZoneAnswer::Absent) => bail!("the folder has no such zone"),
        Err(_) => bail!("the folder could not be read"),
    }
}

fn read_zone(alloc: Global, bytes: &[u8]) -> anyhow::Result<Zone>
    ensures { IfOk result (λ zone. zone_of bytes.now ≡ Some zone) }
{
    match Zone::read(alloc, bytes) {
        Ok(zone) => Ok(zone),
        Err(_) => bail!("the file is no zone"),
    }
}

/// The zone of that name: the one that is built in, or one of the folder.
fn zone_of(rt: &HostRuntime, folder: String, name: &str) -> anyhow::Result<Zone>
    ensures { name.now ≡ UTC.now → IfOk result (λ zone. zone ≡ utc) }
{
    if name == UTC {
        return Ok(Zone::utc());
    }
    let bytes = read_file(rt.clone()?, folder, name)?;
    read_zone(rt.alloc(), bytes.as_slice())
}

/// The civil second that the word spells.
fn read_civil(alloc: Global, word: &str) -> anyhow::Result<Civil>
    ensures { IfOk result IsCivilSecond }
{
    let text = format!(in alloc; "at({word})")?;
    match read_expr(text.as_bytes()) {
        Ok(Expr::At(civil)) => Ok(civil),
        _ => bail!("no civil second from 1970 to 2199"),
    }
}

/// Prints the instant of the civil second that the word spells.
fn print_instant(rt: &HostRuntime, zone: &Zone, word: &str) -> anyhow::Result<()> {
    let civil = read_civil(rt.alloc(), word)?;
    match conv(zone, civil) {
        Some(instant) => println!(rt; "{instant}")?,
        None => println!(rt; "none")?,
    }
    Ok(())
}

fn main(rt: HostRuntime) -> anyhow::Result<()> {
    let mut words = env::args(&rt)?.skip(1);
    let (Some(folder), Some(name)) = (words.next(), words.next()) else {
        bail!("usage: zone_times FOLDER NAME CIVIL..");
    };
    let zone = zone_of(&rt, folder, name.as_str())?;
    for word in words {
        print_instant(&rt, &zone, word.as_str())?;
    }
    Ok(())
}
