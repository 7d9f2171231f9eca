use flow_files::Files;
use pmap_model::KeyHashing;

/// The files that a command reads, and how labels and groups are hashed. What is written doesn't depend on the hashing.
#[derive(Drop)]
pub struct Inputs<'a, R> {
    pub files: Files<'a, R>,
    pub hashing: KeyHashing,
}
