//! Identifiers of packet stores.
ghost use Rattle.std.specs.Prelude.{◌≡◌, ◌≤◌, ◌↔◌, IsOk, IfOk, IfErr, IsTrue, length, take};
ghost use Rattle.mm_base.specs.Id.{is_id_char, id_text, field_of, IsIdText, IsIdField};
ghost use Rattle.mm_base.specs.declared.fault.Fault.TheVariants.{BadId};

use crate::fault::Fault;
use std::marker::Model;
use std::str::FromStr;

/// The identifier of a packet store: 1 to 8 of the characters `A-Z 0-9 _ -`. Contracts see it as its field in a
/// telecommand: 8 octets, the text padded on the right with spaces.
#[derive(Clone, Copy, Debug, PartialEq, Eq, PartialOrd, Ord)]
pub struct StoreId([u8; 8]);

impl Model for StoreId {
    ghost use Rattle.std.specs.Prelude.{ℕ, List};
    ghost use Rattle.mm_base.specs.Id.{IsIdField};

    ghost Value = { List ℕ };

    ghost view = { λ a. a.0 };

    ghost invariant = { λ a. IsIdField a.0 };

    ghost inverse = { λ octets. record { 0 = octets } };
}

fn is_id_char(octet: u8) -> bool
    ensures { result ≡ is_id_char octet }
{
    octet.is_ascii_uppercase() || octet.is_ascii_digit() || octet == b'_' || octet == b'-'
}

fn is_id_text(text: &[u8]) -> bool
    ensures { IsTrue result ↔ IsIdText text.now }
{
    !text.is_empty() && text.len() <= 8 && text.iter().all(|octet| is_id_char(*octet))
}

// The field with this text.
fn padded(text: &[u8]) -> [u8; 8]
    requires { length text.now ≤ 8 }
    ensures { result ≡ field_of text.now }
{
    let mut field = [b' '; 8];
    field[..text.len()].copy_from_slice(text);
    field
}

// The number of octets before the padding.
fn text_len(field: &[u8]) -> usize
    ensures text { take result field.now ≡ id_text field.now }
    ensures within { result ≤ length field.now }
{
    for (i, octet) in field.iter().enumerate() {
        if *octet == b' ' {
            return i;
        }
    }
    field.len()
}

fn is_id_field(field: &[u8; 8]) -> bool
    ensures { IsTrue result ↔ IsIdField field.now }
{
    let text = &field[..text_len(field)];
    is_id_text(text) && padded(text) == *field
}

impl StoreId {
    /// The identifier with this text. A text that is not an identifier is `BadId`.
    pub fn of_text(text: &[u8]) -> Result<StoreId, Fault>
        ensures found { IsOk result ↔ IsIdText text.now }
        ensures id { IfOk result (λ id. id ≡ field_of text.now) }
        ensures bad { IfErr result (λ e. e ≡ BadId) }
    {
        if is_id_text(text) {
            Ok(StoreId(padded(text)))
        } else {
            Err(Fault::BadId)
        }
    }

    /// The identifier in this field of a telecommand. A field without an identifier is `BadId`.
    pub fn of_field(field: [u8; 8]) -> Result<StoreId, Fault>
        ensures found { IsOk result ↔ IsIdField field }
        ensures id { IfOk result (λ id. id ≡ field) }
        ensures bad { IfErr result (λ e. e ≡ BadId) }
    {
        if is_id_field(&field) {
            Ok(StoreId(field))
        } else {
            Err(Fault::BadId)
        }
    }

    /// The identifier's text, without padding.
    pub fn text(&self) -> &[u8]
        ensures text { result.now ≡ id_text self.now }
    {
        &self.0[..text_len(&self.0)]
    }

    /// The identifier's field in a telecommand or a report: 8 octets.
    pub fn field(&self) -> [u8; 8]
        ensures field { result ≡ self.now }
        ensures is_field { IsIdField self.now }
    {
        self.0
    }
}

impl FromStr for StoreId {
    type Err = Fault;

    ghost from_str_gives = { λ text r. (IsOk r ↔ IsIdText text) × IfOk r (λ id. id ≡ field_of text)
        × IfErr r (λ e. e ≡ BadId) };

    fn from_str(text: &str) -> Result<StoreId, Fault> {
        StoreId::of_text(text.as_bytes())
    }
}

impl TryFrom<[u8; 8]> for StoreId {
    type Error = Fault;

    ghost try_from_gives = { λ field r. (IsOk r ↔ IsIdField field) × IfOk r (λ id. id ≡ field)
        × IfErr r (λ e. e ≡ BadId) };

    fn try_from(field: [u8; 8]) -> Result<StoreId, Fault> {
        StoreId::of_field(field)
    }
}
