//! Which locations may be next to one another.
use super::Stopped;
use layout_model::check;
use layout_set::CheckErr;
use rv_io::Buf;
use std::alloc::Global;

/// A line `I J` for each two of the locations, one a line and counted from 0, of which two entries that abut are refused:
/// the layout ends with the line of a variable in a scope from 0x10 to 0x20.
pub fn refused_pairs(alloc: Global, layout: &[u8], places: &[u8]) -> Result<Buf, Stopped> {
    let Ok(places) = str::from_utf8(places) else {
        return Err(Stopped::Refused("not UTF-8\n"));
    };
    let mut out = Buf::new(alloc);
    for (i, first) in places.split_terminator('\n').enumerate() {
        for (j, second) in places.split_terminator('\n').enumerate() {
            if is_refused(alloc, layout, first, second)? {
                let line = format!(in alloc; "{i} {j}\n").map_err(|_| Stopped::Memory)?;
                out.put(line.as_bytes())?;
            }
        }
    }
    Ok(out)
}

/// Whether the layout with these two entries breaks the law of locations.
fn is_refused(alloc: Global, layout: &[u8], first: &str, second: &str) -> Result<bool, Stopped> {
    let mut file = Buf::new(alloc);
    file.put(layout)?;
    put_entry(&mut file, "at 0x10 0x18 ", first)?;
    put_entry(&mut file, "at 0x18 0x20 ", second)?;
    let set = layout_file::read(alloc, file.as_bytes())?;
    match check(alloc, &set) {
        Ok(()) => Ok(false),
        Err(CheckErr::Breach { law: 13, .. }) => Ok(true),
        Err(e) => Err(Stopped::from(e)),
    }
}

/// Adds the lines of an entry; between them is ` / `.
fn put_entry(file: &mut Buf, range: &str, lines: &str) -> Result<(), Stopped> {
    file.put(range.as_bytes())?;
    for line in lines.split(" / ") {
        file.put(line.as_bytes())?;
        file.put(b"\n")?;
    }
    Ok(())
}
