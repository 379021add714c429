//! Files of cases, which are set by their names.

/// A name, and the bytes of that name.
#[derive(Drop)]
pub struct Named {
    pub name: String,
    pub bytes: Vec<u8>,
}
