/// The two kinds of text. A prefix list has no ranges, no default and no repeated block.
#[derive(Clone, Copy, PartialEq, Eq)]
pub enum Form {
    /// A map text: the last statement that covers an address decides.
    Map,
    /// A list text: the longest block that covers an address decides.
    List,
}
