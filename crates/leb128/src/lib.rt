// Numbers in groups of seven bits (unsigned LEB128, shortest form only), zigzag for signed ones.
#![tactic(auto)]

ghost use Rattle.std.specs.Prelude.{◌≡◌, ◌+◌, ◌<◌, ◌^◌, length, set};
ghost use Rattle.std.proofs.lemmas.List.Edits.{sets};
ghost use Rattle.leb128.specs.Numbers.{number, found, below32, number_at, signed_at, zigzag as zigzagOf, unzigzag as unzigzagOf};
ghost use Rattle.leb128.specs.Results.{number_read};
ghost use Rattle.leb128.specs.Inner.Groups.{joined_groups};

// What a 1 of the fifth group counts: 128 ^ 4.
const FIFTH: u64 = 268435456;

// The number whose last group, at `at`, is b, behind groups of value `low`: shortest form only, and below 2 ^ 32.
fn last(low: u64, scale: u64, b: u64, at: usize) -> Option<(u64, usize)>
    requires { (low < scale) × (scale < 2 ^ 35) × (b < 128) × (at + 1 < 2 ^ 64) }
    ensures { number_read result ≡ below32 at (joined_groups low scale (found b 1)) }
{
    let v = low + b * scale;
    if 4294967296 <= v {
        return None;
    }
    if 1 <= b {
        return Some((v, at + 1));
    }
    if scale == 1 {
        return Some((v, at + 1));
    }
    None
}

// A number of any length, group by group, the lowest first, at most five; `scale` is what a 1 of the group at `i` counts.
fn long_at(s: &[u8], at: usize) -> Option<(u64, usize)>
    ensures { number_read result ≡ number_at s.now at }
{
    let mut low: u64 = 0;
    let mut scale: u64 = 1;
    for i in at..s.len() {
        let byte = u64::from(s[i]);
        if byte < 128 {
            return last(low, scale, byte, i);
        }
        if FIFTH <= scale {
            return None;
        }
        low += (byte - 128) * scale;
        scale *= 128;
    }
    None
}

// The number at a place and the place behind it, or no number below 2 ^ 32 in shortest form. Most have one group, which is read here without a call.
pub fn unsigned_at(s: &[u8], at: usize) -> Option<(u64, usize)>
    ensures { number_read result ≡ number_at s.now at }
{
    if at < s.len() {
        let b = u64::from(s[at]);
        if b < 128 {
            return Some((b, at + 1));
        }
    }
    long_at(s, at)
}

// A signed number, likewise.
pub fn signed_at(s: &[u8], at: usize) -> Option<(i32, usize)>
    ensures { number_read result ≡ signed_at s.now at }
{
    let (u, next) = unsigned_at(s, at)?;
    Some((unzigzag(u), next))
}

// One byte, where there is room for it; the place behind it.
pub fn put_byte(out: &mut [u8], at: usize, b: u8) -> usize
    requires { at < 2 ^ 32 }
    ensures { (result ≡ at + 1) × (out.new ≡ set out.old at b) }
{
    if at < out.len() {
        out[at] = b;
    }
    at + 1
}

// The groups of n, as far as there is room; the place behind them all. Over an empty buffer it measures.
pub fn put_unsigned(out: &mut [u8], at: usize, n: u64) -> usize
    requires { (at < 2 ^ 31) × (n < 2 ^ 32) }
    ensures { (result ≡ at + length (number n)) × (out.new ≡ sets out.old at (number n)) }
{
    let mut rest = n;
    let mut i = at;
    // a `while`: what is left of the number says whether another group follows
    while 128 <= rest {
        i = put_byte(out, i, (128 + rest % 128) as u8);
        rest = rest / 128;
    }
    put_byte(out, i, rest as u8)
}

pub fn put_signed(out: &mut [u8], at: usize, z: i32) -> usize
    requires { at < 2 ^ 31 }
    ensures { (result ≡ at + length (number (zigzagOf z))) × (out.new ≡ sets out.old at (number (zigzagOf z))) }
{
    put_unsigned(out, at, zigzag(z))
}

pub fn zigzag(z: i32) -> u64
    ensures { (result ≡ zigzagOf z) × (result < 2 ^ 32) }
{
    if 0 <= z {
        return z as u64 * 2;
    }
    let n = -1 - z;
    n as u64 * 2 + 1
}

pub fn unzigzag(u: u64) -> i32
    requires { u < 2 ^ 32 }
    ensures { result ≡ unzigzagOf u }
{
    let h = (u / 2) as i32;
    if u % 2 == 0 {
        return h;
    }
    -1 - h
}
