//! How a source gets into RAM.

ghost use Rattle.std.specs.Prelude.{◌≡◌, ◌+◌, ◌<◌, ◌^◌, drop, OnOk, replicate};
ghost use Rattle.sv8_source.specs.Listing.{listing};
ghost use Rattle.sv8_source.specs.Image.{image_bytes};
ghost use Rattle.sv8_phys.specs.Memory.{ram_size};
ghost use Rattle.sv8_reset.specs.Loading.{byte_placed, bytes_placed, lines_placed};

use std::alloc::AllocError;
use sv8_phys::Phys;
use sv8_source::Source;

/// Writes a byte, where the address lies in RAM.
fn place_byte<const PAGES: usize>(
    phys: &mut Phys<PAGES>,
    at: u64,
    byte: u8,
) -> Result<(), AllocError>
    ensures { OnOk result (phys.new ≡ record phys.old { ram = byte_placed (ram_size PAGES) at byte phys.old.ram }) }
{
    let size = phys.ram_size();
    if at < size {
        phys.poke(at as u32, byte)?;
    }
    Ok(())
}

/// Writes bytes from an address on.
fn place_bytes<const PAGES: usize>(
    phys: &mut Phys<PAGES>,
    at: u64,
    bytes: &[u8],
) -> Result<(), AllocError>
    requires { at < 2 ^ 32 }
    ensures { OnOk result (phys.new ≡ record phys.old { ram = bytes_placed (ram_size PAGES) at bytes.now phys.old.ram }) }
{
    let mut at = at;
    let mut rest = bytes;
    while let [byte, after @ ..] = rest {
        place_byte(phys, at, *byte)?;
        at += 1;
        rest = after;
    }
    Ok(())
}

/// Writes the bytes of a line by its index, where there is one.
fn place_line<const PAGES: usize>(
    phys: &mut Phys<PAGES>,
    source: &Source,
    index: usize,
) -> Result<(), AllocError>
    requires { index < 65536 }
    ensures placed { OnOk result (lines_placed (ram_size PAGES) (drop (index + 1) (listing source.now)) phys.new.ram ≡ lines_placed (ram_size PAGES) (drop index (listing source.now)) phys.old.ram) }
    ensures others { OnOk result (phys.new ≡ record phys.old { ram = phys.new.ram }) }
{
    match source.line(index + 1) {
        None => Ok(()),
        Some(line) => {
            place_bytes(phys, line.address as u64, line.bytes)?;
            Ok(())
        }
    }
}

/// Writes the image of a source over zeros. Pages in which no line places a byte stay the one of zeros.
pub(crate) fn load<const PAGES: usize>(
    phys: &mut Phys<PAGES>,
    source: &Source,
) -> Result<(), AllocError>
    requires { phys.old.ram ≡ replicate (ram_size PAGES) 0 }
    ensures { OnOk result (phys.new ≡ record phys.old { ram = image_bytes source.now (ram_size PAGES) }) }
{
    for index in 0..source.line_count() {
        place_line(phys, source, index)?;
    }
    Ok(())
}
