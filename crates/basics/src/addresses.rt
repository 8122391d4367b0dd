//! The addresses of sectors (ACS-3, chapter 4: 48-bit addresses).

ghost use Rattle.std.specs.Prelude.{◌≡◌, ◌^◌};
ghost use Rattle.basics.specs.Addresses.{address_limit};
ghost use Rattle.basics.specs.declared.addresses.TheConstants.{ADDRESS_LIMIT};

/// Every address of a sector is below this, so that a drive has at most as many sectors.
pub const ADDRESS_LIMIT: u64 = 1 << 48;

/// The limit has the standard's number.
pub fn laws_of_addresses()
    ensures code { ADDRESS_LIMIT ≡ address_limit }
    ensures number { address_limit ≡ 2 ^ 48 }
{}
