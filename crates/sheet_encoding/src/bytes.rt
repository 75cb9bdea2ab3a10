// Numbers in a file: big-endian, in two's complement where signed.
ghost use Rattle.std.specs.Prelude.{◌≡◌, ◌+◌, ◌≤◌, ◌<◌, length, take, drop};
ghost use Rattle.std.proofs.lemmas.List.Edits.{sets};
ghost use Rattle.integers.specs.Bytes.{be};
ghost use Rattle.sheet_spec.specs.Slots.{◌!◌, slots};
ghost use Rattle.sheet_spec.specs.Fields.{u8, u16, i16, i32, bytes_in, decoded, encoded};

use sheet_spec::sizes::{I32, U16};
use sheet_spec::slots::SLOTS;

// The number that four bytes are.
pub fn four(f: &[u8], at: usize) -> u32
    requires { at + bytes_in i32 ≤ length f.now }
    ensures { result ≡ be (take (bytes_in i32) (drop at f.now)) }
{
    u32::from_be_bytes([f[at], f[at + 1], f[at + 2], f[at + 3]])
}

pub fn get_u8(f: &[u8], at: usize) -> i32
    requires { at + bytes_in u8 ≤ length f.now }
    ensures { result ≡ decoded u8 (drop at f.now) }
{
    i32::from(f[at])
}

pub fn get_u16(f: &[u8], at: usize) -> i32
    requires { at + bytes_in u16 ≤ length f.now }
    ensures { result ≡ decoded u16 (drop at f.now) }
{
    i32::from(u16::from_be_bytes([f[at], f[at + 1]]))
}

pub fn get_i16(f: &[u8], at: usize) -> i32
    requires { at + bytes_in i16 ≤ length f.now }
    ensures { result ≡ decoded i16 (drop at f.now) }
{
    i32::from(i16::from_be_bytes([f[at], f[at + 1]]))
}

pub fn get_i32(f: &[u8], at: usize) -> i32
    requires { at + bytes_in i32 ≤ length f.now }
    ensures { result ≡ decoded i32 (drop at f.now) }
{
    i32::from_be_bytes([f[at], f[at + 1], f[at + 2], f[at + 3]])
}

// Each of the following writes the number at a slot: the last of its four bytes.
pub fn put_u8(s: &mut [u8], at: usize, v: &[i32; SLOTS], slot: usize)
    requires { (at + bytes_in u8 ≤ length s.old) × (slot < slots) }
    ensures { s.new ≡ sets s.old at (encoded u8 (v.now ! slot)) }
{
    let [_, _, _, last] = v[slot].to_be_bytes();
    s[at] = last;
}

// Two bytes, of an i16 too.
pub fn put_u16(s: &mut [u8], at: usize, v: &[i32; SLOTS], slot: usize)
    requires { (at + bytes_in u16 ≤ length s.old) × (slot < slots) }
    ensures { s.new ≡ sets s.old at (encoded u16 (v.now ! slot)) }
{
    let bytes = v[slot].to_be_bytes();
    s[at..at + U16].copy_from_slice(&bytes[I32 - U16..]);
}

pub fn put_i32(s: &mut [u8], at: usize, v: &[i32; SLOTS], slot: usize)
    requires { (at + bytes_in i32 ≤ length s.old) × (slot < slots) }
    ensures { s.new ≡ sets s.old at (encoded i32 (v.now ! slot)) }
{
    s[at..at + I32].copy_from_slice(&v[slot].to_be_bytes());
}
