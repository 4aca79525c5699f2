// The laws of pools: each function's contract is a law, over all pools that calls lead to, and its body does nothing.

ghost use Rattle.slab_space.specs.Reached.{PeakTellsSlabs, AddressesTellNumbers, NumbersTellAddresses};

/// A living homogeneous pool holds just the slabs that its peak of live cells needs.
pub fn peak_tells_slabs()
    ensures { PeakTellsSlabs }
{}

/// In a living homogeneous pool, the address of each cell made tells its number.
pub fn addresses_tell_numbers()
    ensures { AddressesTellNumbers }
{}

/// The number told for an address is that of the cell made there.
pub fn numbers_tell_addresses()
    ensures { NumbersTellAddresses }
{}
