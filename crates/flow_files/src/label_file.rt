ghost use Rattle.std.specs.Prelude.{◌≡◌, option_map};
ghost use Rattle.flow_files.specs.Sources.{files_named, names_of, source_of};

use crate::by_file::ByFile;

/// The name of a file that labels come from.
#[derive(Clone, Copy)]
pub enum LabelFile<'a> {
    /// `--pmap FILE`: a prefix map.
    Map(&'a str),
    /// `--list FILE`: a prefix list.
    List(&'a str),
}

/// Returns the files of a command that may name labels and flows.
pub fn files_named<'a>(
    labels: Option<LabelFile<'a>>,
    flows: Option<&'a str>,
) -> ByFile<Option<&'a str>>
    ensures { names_of result ≡ files_named (option_map source_of labels.entry) (option_map (λ s. s.now) flows.entry) }
{
    let (map, list) = match labels {
        None => (None, None),
        Some(LabelFile::Map(file)) => (Some(file), None),
        Some(LabelFile::List(file)) => (None, Some(file)),
    };
    ByFile {
        map,
        list,
        certificate: None,
        flows,
    }
}
