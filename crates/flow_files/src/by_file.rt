//! The files that a command may read.

/// One thing for each file that a command may read. Files are read in this order.
#[derive(Drop)]
pub struct ByFile<T> {
    pub map: T,
    pub list: T,
    pub certificate: T,
    pub flows: T,
}
