// Bits in lent bytes, most significant first (docs/RULES.md, "Picture area").
#![tactic(auto)]

ghost use Rattle.std.specs.Prelude.{◌≡◌, ◌*◌, ◌<◌, min, [], ◌∷◌, map, length, get_or, take};
ghost use Rattle.lists.specs.Room.{over};
ghost use Rattle.bits.specs.Bits.{num, bits_of, reversed};
ghost use Rattle.bits.specs.Table.{Reverses, found};
ghost use Rattle.bits.specs.Peek.{peek_of, first_set, leading_of};
ghost use Rattle.bits.specs.Inside.{Clear};

// How many bytes the search for a set one looks at in one step, where it can.
const BLOCK: usize = 64;

// Each byte with its bits in the other order, at the byte's own index. docs/REVERSAL.md prints it, sixteen to a row.
const REVERSED: [u8; 256] = [
    0x00, 0x80, 0x40, 0xC0, 0x20, 0xA0, 0x60, 0xE0, 0x10, 0x90, 0x50, 0xD0, 0x30, 0xB0, 0x70, 0xF0,
    0x08, 0x88, 0x48, 0xC8, 0x28, 0xA8, 0x68, 0xE8, 0x18, 0x98, 0x58, 0xD8, 0x38, 0xB8, 0x78, 0xF8,
    0x04, 0x84, 0x44, 0xC4, 0x24, 0xA4, 0x64, 0xE4, 0x14, 0x94, 0x54, 0xD4, 0x34, 0xB4, 0x74, 0xF4,
    0x0C, 0x8C, 0x4C, 0xCC, 0x2C, 0xAC, 0x6C, 0xEC, 0x1C, 0x9C, 0x5C, 0xDC, 0x3C, 0xBC, 0x7C, 0xFC,
    0x02, 0x82, 0x42, 0xC2, 0x22, 0xA2, 0x62, 0xE2, 0x12, 0x92, 0x52, 0xD2, 0x32, 0xB2, 0x72, 0xF2,
    0x0A, 0x8A, 0x4A, 0xCA, 0x2A, 0xAA, 0x6A, 0xEA, 0x1A, 0x9A, 0x5A, 0xDA, 0x3A, 0xBA, 0x7A, 0xFA,
    0x06, 0x86, 0x46, 0xC6, 0x26, 0xA6, 0x66, 0xE6, 0x16, 0x96, 0x56, 0xD6, 0x36, 0xB6, 0x76, 0xF6,
    0x0E, 0x8E, 0x4E, 0xCE, 0x2E, 0xAE, 0x6E, 0xEE, 0x1E, 0x9E, 0x5E, 0xDE, 0x3E, 0xBE, 0x7E, 0xFE,
    0x01, 0x81, 0x41, 0xC1, 0x21, 0xA1, 0x61, 0xE1, 0x11, 0x91, 0x51, 0xD1, 0x31, 0xB1, 0x71, 0xF1,
    0x09, 0x89, 0x49, 0xC9, 0x29, 0xA9, 0x69, 0xE9, 0x19, 0x99, 0x59, 0xD9, 0x39, 0xB9, 0x79, 0xF9,
    0x05, 0x85, 0x45, 0xC5, 0x25, 0xA5, 0x65, 0xE5, 0x15, 0x95, 0x55, 0xD5, 0x35, 0xB5, 0x75, 0xF5,
    0x0D, 0x8D, 0x4D, 0xCD, 0x2D, 0xAD, 0x6D, 0xED, 0x1D, 0x9D, 0x5D, 0xDD, 0x3D, 0xBD, 0x7D, 0xFD,
    0x03, 0x83, 0x43, 0xC3, 0x23, 0xA3, 0x63, 0xE3, 0x13, 0x93, 0x53, 0xD3, 0x33, 0xB3, 0x73, 0xF3,
    0x0B, 0x8B, 0x4B, 0xCB, 0x2B, 0xAB, 0x6B, 0xEB, 0x1B, 0x9B, 0x5B, 0xDB, 0x3B, 0xBB, 0x7B, 0xFB,
    0x07, 0x87, 0x47, 0xC7, 0x27, 0xA7, 0x67, 0xE7, 0x17, 0x97, 0x57, 0xD7, 0x37, 0xB7, 0x77, 0xF7,
    0x0F, 0x8F, 0x4F, 0xCF, 0x2F, 0xAF, 0x6F, 0xEF, 0x1F, 0x9F, 0x5F, 0xDF, 0x3F, 0xBF, 0x7F, 0xFF,
];

// The number that w bits, at most 32, from bit `at` on write. Bits beyond the last byte are zero.
pub fn peek(s: &[u8], at: usize, w: u32) -> u32
    ensures { result ≡ peek_of s.now at (min w 32) }
{
    let width = w.min(32);
    let skipped = (at % 8) as u32;
    let bits = window(s, at / 8) >> (40 - skipped - width);
    (bits % (1u64 << width)) as u32
}

// The number that the five bytes from index k on write. Bytes beyond the last are zero.
fn window(s: &[u8], k: usize) -> u64
    requires { k < 2305843009213693952 }
    ensures { result ≡ peek_of s.now (8 * k) 40 }
{
    if k + 5 <= s.len() {
        return joined(s[k], s[k + 1], s[k + 2], s[k + 3], s[k + 4]);
    }
    joined(
        byte_at(s, k),
        byte_at(s, k + 1),
        byte_at(s, k + 2),
        byte_at(s, k + 3),
        byte_at(s, k + 4),
    )
}

// The number that five bytes write. The first four are a sum of their own, in 32 bits: bytes that stand side by side are then loaded as
// one number.
fn joined(a: u8, b: u8, c: u8, d: u8, e: u8) -> u64
    ensures { result ≡ num (bits_of (a ∷ b ∷ c ∷ d ∷ e ∷ [])) }
{
    u64::from(u32::from_be_bytes([a, b, c, d])) * 256 + u64::from(e)
}

fn byte_at(s: &[u8], i: usize) -> u8
    ensures { result ≡ get_or s.now i 0 }
{
    s.get(i).copied().unwrap_or(0)
}

// The table. Who turns many bytes asks for it once, and then reads it at each byte.
pub fn reversed_bytes() -> [u8; 256]
    ensures { Reverses result }
{
    REVERSED
}

// Stores each byte of s as a table has it over the front of out, as many of them as there is room for.
pub fn look_up(s: &[u8], table: &[u8; 256], out: &mut [u8])
    ensures { out.new ≡ over (take (length out.old) (map (found table.now) s.now)) out.old }
{
    for i in 0..s.len().min(out.len()) {
        let b = s[i];
        let turned = table[usize::from(b)];
        out[i] = turned;
    }
}

// A byte with its bits in the other order.
pub fn reverse(b: u8) -> u8
    ensures { result ≡ reversed b }
{
    let table = reversed_bytes();
    table[usize::from(b)]
}

// Where, from index `from` on, the first byte stands that is not 0, or the end.
pub fn first_set(s: &[u8], from: usize) -> usize
    ensures { result ≡ first_set s.now from }
{
    // A while: the step is not always one.
    let mut i = from;
    while i < s.len() {
        if is_clear(s, i) {
            i += BLOCK;
        } else {
            if s[i] != 0 {
                return i;
            }
            i += 1;
        }
    }
    i
}

// Whether the 64 bytes from index i on are all 0. It looks at all of them: a loop that does not leave early is done by wide registers.
fn is_clear(s: &[u8], i: usize) -> bool
    ensures { Clear s.now i result }
{
    if s.len() < BLOCK {
        return false;
    }
    if s.len() - BLOCK < i {
        return false;
    }
    let mut any = 0;
    for j in 0..BLOCK {
        any |= s[i + j];
    }
    any == 0
}

// How many zero bits a byte begins with.
pub fn leading(b: u8) -> u32
    ensures { result ≡ leading_of b }
{
    b.leading_zeros()
}
