/// What a power cut leaves in dirty bytes.
#[derive(Clone, Copy, Debug, PartialEq, Eq)]
pub enum Tear {
    /// What was put.
    AsPut,
    /// This byte in each of them.
    Byte(u8),
}
