//! Numbers in bytes, the highest byte first; past the end there are zeros.
ghost use Rattle.std.specs.Prelude.{◌≡◌, ◌<◌, ◌^◌};
ghost use Rattle.bridge.specs.Bytes.{byte_at, pair_at, value_at};

pub(crate) fn byte_at(bytes: &[u8], i: usize) -> u8
    ensures { result ≡ byte_at bytes.now i }
{
    bytes.get(i).copied().unwrap_or(0)
}

pub(crate) fn pair_at(bytes: &[u8], i: usize) -> u16
    requires { i < 2 ^ 63 }
    ensures { result ≡ pair_at bytes.now i }
{
    u16::from_be_bytes([byte_at(bytes, i), byte_at(bytes, i + 1)])
}

pub(crate) fn value_at(bytes: &[u8], i: usize) -> i16
    requires { i < 2 ^ 63 }
    ensures { result ≡ value_at bytes.now i }
{
    pair_at(bytes, i).cast_signed()
}
