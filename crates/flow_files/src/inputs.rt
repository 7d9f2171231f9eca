use crate::by_file::ByFile;

/// A file to read, with its name on the command line.
#[derive(Drop)]
pub struct Source<'a, R> {
    pub name: &'a str,
    pub reader: R,
}

/// The files that a command reads.
pub type Files<'a, R> = ByFile<Option<Source<'a, R>>>;
