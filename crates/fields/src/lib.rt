// Numbers in bytes, little-endian: read where all their bytes are there, and written as bytes.
#![tactic(auto)]

ghost use Rattle.std.specs.Prelude.{◌≡◌, ℕ, ◌+◌, ◌<◌, ◌≤◌, length, slice_index};
ghost use Rattle.rules.specs.Payload.{number_at, bytes_of};

// The N bytes from an offset on, all of which are there.
fn bytes_at<const N: usize>(p: &[u8], at: usize) -> [u8; N]
    requires { at + N ≤ length p.now }
    ensures { (k : ℕ) → k < N → slice_index result k ≡ slice_index p.now (at + k) }
{
    *p[at..].first_chunk().unwrap()
}

// The number in two bytes, in four, and in eight, all of which are there; also the bit pattern of a float or a signed number. They are three since Rust's
// `from_le_bytes` is no trait's: one function over a trait would want that trait and its three impls besides.
pub fn u16_at(p: &[u8], at: usize) -> u16
    requires { at + 2 ≤ length p.now }
    ensures { result ≡ number_at 2 at p.now }
{
    u16::from_le_bytes(bytes_at(p, at))
}

pub fn u32_at(p: &[u8], at: usize) -> u32
    requires { at + 4 ≤ length p.now }
    ensures { result ≡ number_at 4 at p.now }
{
    u32::from_le_bytes(bytes_at(p, at))
}

pub fn u64_at(p: &[u8], at: usize) -> u64
    requires { at + 8 ≤ length p.now }
    ensures { result ≡ number_at 8 at p.now }
{
    u64::from_le_bytes(bytes_at(p, at))
}

// A number's bytes, lowest first.
pub fn bytes16(n: u16) -> [u8; 2]
    ensures { result ≡ bytes_of 2 n }
{
    n.to_le_bytes()
}

pub fn bytes32(n: u32) -> [u8; 4]
    ensures { result ≡ bytes_of 4 n }
{
    n.to_le_bytes()
}
