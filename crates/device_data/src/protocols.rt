//! What security protocol 00h tells (SPC-4, SECURITY PROTOCOL IN, "Security protocol information").

ghost use Rattle.std.specs.Prelude.{◌≡◌};
ghost use Rattle.device_data.specs.Protocols.{protocol_list, certificate_data};

/// How many bytes the list of security protocols has.
pub const PROTOCOL_LIST_LENGTH: usize = 11;

/// The list of security protocols: itself, 00h, and those of TCG Storage, 01h and 02h.
pub fn protocol_list() -> [u8; PROTOCOL_LIST_LENGTH]
    ensures { result ≡ protocol_list }
{
    [0, 0, 0, 0, 0, 0, 0, 3, 0, 1, 2]
}

/// How many bytes the certificate data of a drive without certificates have.
pub const CERTIFICATE_DATA_LENGTH: usize = 4;

/// The certificate data: there is no certificate.
pub fn certificate_data() -> [u8; CERTIFICATE_DATA_LENGTH]
    ensures { result ≡ certificate_data }
{
    [0; CERTIFICATE_DATA_LENGTH]
}
