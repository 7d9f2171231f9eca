use thiserror::Error;

/// The reason why a text does not name the fields of keys.
#[derive(Clone, Copy, Debug, PartialEq, Eq, Error)]
pub enum KeyFault {
    /// An item is not the name of a field.
    #[error("not a field")]
    BadField,
    /// Each item is the name of a field, and one occurs twice.
    #[error("a field that was named before")]
    FieldRepeated,
    /// An allocation failed. [`Keys::read`](crate::Keys::read) allocates nothing and never returns it.
    #[error("out of memory")]
    NoMemory,
}
