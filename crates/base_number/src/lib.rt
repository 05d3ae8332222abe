// Numbers as little-endian bytes, the wrapping sum on i32, and the signed range test.
#![tactic(auto)]

ghost use Rattle.std.specs.Prelude.{◌≡◌, ◌+◌, ◌<◌, ◌≤◌, length, drop};
ghost use Rattle.std.proofs.lemmas.List.Edits.{sets};
ghost use Rattle.std.specs.Int.{w32};
ghost use Rattle.std.proofs.Common.{to_z, of_z};
ghost use Rattle.base_number.specs.Number.{short_of, short_bytes, bits_of, bits_bytes, int_of, int_bytes, wrap_add, between};

// The bits of a signed number, and back.
pub fn signed(n: u32) -> i32
    ensures { result ≡ to_z w32 n }
{
    n.cast_signed()
}

pub fn bits(z: i32) -> u32
    ensures { result ≡ of_z w32 z }
{
    z.cast_unsigned()
}

pub fn short_at(s: &[u8], at: usize) -> usize
    requires { at + 2 ≤ length s.now }
    ensures { (result ≡ short_of (drop at s.now)) × (result < 65536) }
{
    usize::from(u16::from_le_bytes([s[at], s[at + 1]]))
}

pub fn put_short(s: &mut [u8], at: usize, n: usize)
    requires { (at + 2 ≤ length s.old) × (n < 65536) }
    ensures { s.new ≡ sets s.old at (short_bytes n) }
{
    s[at..at + 2].copy_from_slice(&(n as u16).to_le_bytes());
}

fn bits_at(s: &[u8], at: usize) -> u32
    requires { at + 4 ≤ length s.now }
    ensures { result ≡ bits_of (drop at s.now) }
{
    u32::from_le_bytes([s[at], s[at + 1], s[at + 2], s[at + 3]])
}

pub fn int_at(s: &[u8], at: usize) -> i32
    requires { at + 4 ≤ length s.now }
    ensures { result ≡ int_of (drop at s.now) }
{
    signed(bits_at(s, at))
}

fn put_bits(s: &mut [u8], at: usize, n: u32)
    requires { at + 4 ≤ length s.old }
    ensures { s.new ≡ sets s.old at (bits_bytes n) }
{
    s[at..at + 4].copy_from_slice(&n.to_le_bytes());
}

pub fn put_int(s: &mut [u8], at: usize, z: i32)
    requires { at + 4 ≤ length s.old }
    ensures { s.new ≡ sets s.old at (int_bytes z) }
{
    put_bits(s, at, bits(z));
}

// The sum, wrapping at 32 bits.
pub fn wrap_add(a: i32, b: i32) -> i32
    ensures { result ≡ wrap_add a b }
{
    a.wrapping_add(b)
}

// low <= x <= high, signed.
pub fn is_between(low: i32, x: i32, high: i32) -> bool
    ensures { result ≡ between low x high }
{
    low <= x && x <= high
}
