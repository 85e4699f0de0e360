// The report of a run as one number, for C.
ghost use Rattle.std.specs.Prelude.{◌≡◌, ◌+◌, ◌*◌, ◌^◌};

// code*2^48 + place*2^32 + record count. Code and place are narrow enough that the sum cannot wrap.
// Stays: C has no tuples, and the header of the archive says that the report is this number.
pub fn pack(code: u8, place: u16, count: u32) -> u64
    ensures { result ≡ code * 2 ^ 48 + place * 2 ^ 32 + count }
{
    (u64::from(code) << 48) + (u64::from(place) << 32) + u64::from(count)
}
