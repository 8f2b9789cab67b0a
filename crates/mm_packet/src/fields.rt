//! Fields one after another, read from the front of octets and written at their end.

/// The value whose fields stand at the front of the octets, each read by its function, and what follows it. `None` if a
/// field is missing.
#[macro_export]
macro_rules! fields_at {
    ($octets:expr; $($value:ident)::+ { $($field:ident: $at:ident $(($given:expr))?),+ }) => {{
        let rest = $octets;
        $(let ($field, rest) = $at($($given,)? rest)?;)+
        Some(($($value)::+ { $($field),+ }, rest))
    }};
}

/// Writes the octets of each field at the end, one after another.
#[macro_export]
macro_rules! put_fields {
    ($out:expr; $($octets:expr),+) => {{
        $($out.extend_from_slice(&$octets)?;)+
        Ok(())
    }};
}
