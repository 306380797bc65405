//! What a message is: its header fields with their values, and its body as a tree of parts (RFC 5322 §2, RFC 2045 §2).
//! Contracts see a `Message` as its tree, which is a value of `specs/Trees`.
#![tactic(auto)]

mod reasons;
mod trees;
mod values;

pub use reasons::{Mail, Reason};
pub use trees::{Body, Encoding, Message};
pub use values::{Field, Item, SentDate, Value};

#[cfg(test)]
mod tests {
    use super::*;
    use octets::Octets;
    use sqlite_items::Items;
    use std::test::Fail;

    fn text(alloc: std::alloc::Global, bytes: &[u8]) -> Result<Octets, std::alloc::AllocError> {
        Ok(Octets::new(bytes.to_vec(alloc)?))
    }

    #[test]
    fn a_digest_of_one_mail_is_built_and_read(rt: HostRuntime) -> Result<(), Fail> {
        let alloc = rt.alloc();
        let leaf = Body::Leaf {
            encoding: Encoding::Base64,
            bytes: text(alloc, b"\0\xff")?,
        };
        let sender = Item::Address {
            name: text(alloc, b"Ann")?,
            local: text(alloc, b"ann")?,
            domain: text(alloc, b"x.org")?,
        };
        let inner = Message {
            fields: vec![in alloc;
                Field {
                    name: text(alloc, b"From")?,
                    value: Value::Addresses(Items::from_vec(vec![in alloc; sender]?))
                },
            ]?,
            body: leaf,
        };
        let part = Message {
            fields: Vec::new(alloc),
            body: Body::Nested(Box::new(alloc, inner)?),
        };
        let digest = Message {
            fields: Vec::new(alloc),
            body: Body::Multi(vec![in alloc; part]?),
        };
        let mail = Mail {
            message: digest,
            reason: Some(Reason::TooDeep),
        };
        let shown = format!(in alloc; "{mail:?}")?;
        assert!(rt; shown.as_str().contains("Base64"));
        assert!(rt; shown.as_str().ends_with("reason: Some(TooDeep) }"));
        Ok(())
    }
}
