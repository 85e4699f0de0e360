// Numbers in octets, most significant octet first.
#![tactic(auto)]

ghost use Rattle.std.specs.Prelude.{◌≡◌, ◌+◌, ◌≤◌, ◌<◌, length};
ghost use Rattle.octets.specs.BigEndian.{be16, be32, octets32};
ghost use Rattle.octets.specs.Splice.{splice};

pub mod group;

// The number in the two octets from a place on.
// Stays: `from_be_bytes` is a method of each number type and of no trait, so that one function for both sizes would need a trait of its own.
pub fn read16(s: &[u8], at: usize) -> u32
    requires { at + 2 ≤ length s.now }
    ensures { (result ≡ be16 s.now at) × (result < 65536) }
{
    u32::from(u16::from_be_bytes([s[at], s[at + 1]]))
}

// The number in the four octets from a place on.
pub fn read32(s: &[u8], at: usize) -> u32
    requires { at + 4 ≤ length s.now }
    ensures { result ≡ be32 s.now at }
{
    u32::from_be_bytes([s[at], s[at + 1], s[at + 2], s[at + 3]])
}

// A number as the four octets from a place on; all others stay.
#[tactic(auto, unfolding(crate::specs::Splice::splice, crate::specs::BigEndian::octets32))]
pub fn write32(buf: &mut [u8], at: usize, n: u32)
    requires { at + 4 ≤ length buf.old }
    ensures { buf.new ≡ splice buf.old at (octets32 n) }
{
    buf[at..at + 4].copy_from_slice(&n.to_be_bytes());
}
