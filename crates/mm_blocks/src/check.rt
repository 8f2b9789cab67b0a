//! The check CRC-32C (RFC 3720, 12.1), by eight tables.
ghost use Rattle.std.specs.Prelude.{◌≡◌, ℕ, ◌+◌, ◌*◌, ◌%◌, ◌^◌, ◌<◌, List, ◌∷◌, ◌++◌};
ghost use Rattle.mm_blocks.specs.Check.{divided, remainder_from, crc32c};

// The remainders of all octets, from those of the single bits.
macro_rules! octets {
    ($($entry:expr),*;) => { [$($entry),*] };
    ($($entry:expr),*; $bit:expr $(, $bits:expr)*) => {
        octets!($($entry),*, $($entry ^ $bit),*; $($bits),*)
    };
}

// What an octet leaves in the register when it and 0 to 7 more octets have passed.
static TABLES: [[u32; 256]; 8] = [
    octets!(0; 0xf26b8303, 0xe13b70f7, 0xc79a971f, 0x8ad958cf, 0x105ec76f, 0x20bd8ede, 0x417b1dbc, 0x82f63b78),
    octets!(0; 0x13a29877, 0x274530ee, 0x4e8a61dc, 0x9d14c3b8, 0x3fc5f181, 0x7f8be302, 0xff17c604, 0xfbc3faf9),
    octets!(0; 0xa541927e, 0x4f6f520d, 0x9edea41a, 0x38513ec5, 0x70a27d8a, 0xe144fb14, 0xc76580d9, 0x8b277743),
    octets!(0; 0xdd45aab8, 0xbf672381, 0x7b2231f3, 0xf64463e6, 0xe964b13d, 0xd725148b, 0xaba65fe7, 0x52a0c93f),
    octets!(0; 0x38116fac, 0x7022df58, 0xe045beb0, 0xc5670b91, 0x8f2261d3, 0x1ba8b557, 0x37516aae, 0x6ea2d55c),
    octets!(0; 0xef306b19, 0xdb8ca0c3, 0xb2f53777, 0x6006181f, 0xc00c303e, 0x85f4168d, 0x0e045beb, 0x1c08b7d6),
    octets!(0; 0x68032cc8, 0xd0065990, 0xa5e0c5d1, 0x4e2dfd53, 0x9c5bfaa6, 0x3d5b83bd, 0x7ab7077a, 0xf56e0ef4),
    octets!(0; 0x493c7d27, 0x9278fa4e, 0x211d826d, 0x423b04da, 0x847609b4, 0x0d006599, 0x1a00cb32, 0x34019664),
];

// What an octet leaves in the register after so many more octets.
#[inline(always)]
fn left_after(more: usize, octet: u8) -> u32
    requires { more < 8 }
    ensures { result ≡ divided (8 * more + 8) octet }
{
    TABLES[more][octet as usize]
}

// The octet at the low end of a number.
#[inline(always)]
fn low_octet(bits: u64) -> u8
    ensures { result ≡ bits % 2 ^ 8 }
{
    (bits & 0xff) as u8
}

// The remainder of eight octets, of which this is the number.
#[inline(always)]
fn remainder_of_eight(bits: u64) -> u32
    ensures { result ≡ divided 64 bits }
{
    left_after(7, low_octet(bits))
        ^ left_after(6, low_octet(bits >> 8))
        ^ left_after(5, low_octet(bits >> 16))
        ^ left_after(4, low_octet(bits >> 24))
        ^ left_after(3, low_octet(bits >> 32))
        ^ left_after(2, low_octet(bits >> 40))
        ^ left_after(1, low_octet(bits >> 48))
        ^ left_after(0, low_octet(bits >> 56))
}

// The register after eight more octets.
#[inline(always)]
pub(crate) fn after_eight(register: u32, octets: &[u8; 8]) -> u32
    ensures { (rest : List ℕ) → remainder_from result rest ≡ remainder_from register (octets.now ++ rest) }
{
    remainder_of_eight(u64::from_le_bytes(*octets) ^ u64::from(register))
}

// The register after one more octet.
#[inline(always)]
fn after_one(register: u32, octet: u8) -> u32
    ensures { (rest : List ℕ) → remainder_from result rest ≡ remainder_from register (octet ∷ rest) }
{
    left_after(0, low_octet(u64::from(register ^ u32::from(octet)))) ^ register >> 8
}

// The register after more octets.
#[inline(always)]
pub(crate) fn after(mut register: u32, octets: &[u8]) -> u32
    ensures { result ≡ remainder_from register octets.now }
{
    let mut rest = octets;
    'eights: while let Some((eight, more)) = rest.split_first_chunk() {
        register = after_eight(register, eight);
        rest = more;
    }
    for octet in rest {
        register = after_one(register, *octet);
    }
    register
}

/// The check CRC-32C of some octets.
#[must_use]
pub fn crc32c(octets: &[u8]) -> u32
    ensures { result ≡ crc32c octets.now }
{
    after(u32::MAX, octets) ^ u32::MAX
}
