//! Number fields, big-endian, each read from the front of some octets.
ghost use Rattle.std.specs.Prelude.{◌≡◌, ◌∷◌, ◌++◌, IfSome};
ghost use Rattle.std.specs.Option.{option_map};
ghost use Rattle.std.specs.Int.{w16, w32, w64, to_be_bytes};
ghost use Rattle.mm_base.specs.NumberFields.{front_octet, number_at};

/// The first octet, and those after it.
#[must_use]
pub fn octet_at(octets: &[u8]) -> Option<(u8, &[u8])>
    ensures value { option_map (λ x. (x.0, x.1.now)) result ≡ front_octet octets.now }
    ensures spelled { IfSome result (λ x. octets.now ≡ x.0 ∷ x.1.now) }
{
    match octets {
        [] => None,
        [first, rest @ ..] => Some((*first, rest)),
    }
}

/// The number of two octets at the front, and the octets after it.
#[must_use]
pub fn u16_at(octets: &[u8]) -> Option<(u16, &[u8])>
    ensures value { option_map (λ x. (x.0, x.1.now)) result ≡ number_at w16 octets.now }
    ensures spelled { IfSome result (λ x. octets.now ≡ to_be_bytes w16 x.0 ++ x.1.now) }
{
    let (front, rest) = octets.split_first_chunk()?;
    Some((u16::from_be_bytes(*front), rest))
}

/// The number of four octets at the front, and the octets after it.
#[must_use]
pub fn u32_at(octets: &[u8]) -> Option<(u32, &[u8])>
    ensures value { option_map (λ x. (x.0, x.1.now)) result ≡ number_at w32 octets.now }
    ensures spelled { IfSome result (λ x. octets.now ≡ to_be_bytes w32 x.0 ++ x.1.now) }
{
    let (front, rest) = octets.split_first_chunk()?;
    Some((u32::from_be_bytes(*front), rest))
}

/// The number of eight octets at the front, and the octets after it.
#[must_use]
pub fn u64_at(octets: &[u8]) -> Option<(u64, &[u8])>
    ensures value { option_map (λ x. (x.0, x.1.now)) result ≡ number_at w64 octets.now }
    ensures spelled { IfSome result (λ x. octets.now ≡ to_be_bytes w64 x.0 ++ x.1.now) }
{
    let (front, rest) = octets.split_first_chunk()?;
    Some((u64::from_be_bytes(*front), rest))
}
