//! Laws of accesses, each a function that does nothing and whose contract is the law.

ghost use Rattle.sv8_part_laws.specs.DeviceLaws.{DevicesAreServed};

/// A load or a store at a physical address is answered exactly where the address is served, which is what a translation asks: RAM
/// serves every size, the devices loads and stores of words alone. An exchange and a fetch are answered in RAM alone.
///
/// It holds where NF hides no fault; one that is hidden is answered with 0.
pub fn devices_are_served()
    ensures { DevicesAreServed }
{}
