// Numbers of sixteen bits, big-endian in bytes.
ghost use Rattle.std.specs.Prelude.{◌≡◌, ◌+◌, ◌≤◌, length};
ghost use Rattle.ring.specs.Bytes.{half_at};

// The 16 bits at place k.
pub(crate) fn half(s: &[u8], k: usize) -> u16
    requires { k + 2 ≤ length s.now }
    ensures { result ≡ half_at s.now k }
{
    u16::from_be_bytes([s[k], s[k + 1]])
}
