ghost use Rattle.std.specs.Prelude.{◌≡◌, is_some};
ghost use Rattle.flow_files.specs.ByFile.{each};
ghost use Rattle.flow_files.specs.Sources.{files_named, names_of};
ghost use Rattle.flowlabel.specs.Request.{files_of, request_of};

use flow_files::{ByFile, LabelFile, files_named};
use flow_filter::Filter;
use flow_uniq::Keys;
use prefix_keys::Addr;

/// The output of `shrink` for a map.
#[derive(Clone, Copy)]
pub enum Shrunk {
    /// A shortest prefix list that labels every address as the map does.
    List,
    /// `--certificate`: the certificate of that list.
    Certificate,
    /// `--certificate --compact`: that certificate, compacted.
    Compact,
}

/// A command, as a command line asks for it. File names and texts are borrowed from the words.
#[derive(Drop)]
pub enum Command<'a> {
    /// `label`: the label of an address.
    Label {
        labels: LabelFile<'a>,
        addr: Addr,
    },
    /// `info`: how many messages, sets and records an IPFIX File has.
    Info {
        flows: &'a str,
    },
    /// `rows`: the rows of an IPFIX File that pass the filter, with labels if a map or a list is named.
    Rows {
        labels: Option<LabelFile<'a>>,
        filter: Filter<'a>,
        columns: bool,
        flows: &'a str,
    },
    /// `uniq`: the groups of such rows by fields, with their totals, in the order of their first rows or sorted.
    Uniq {
        keys: Keys,
        labels: Option<LabelFile<'a>>,
        filter: Filter<'a>,
        sorted: bool,
        columns: bool,
        flows: &'a str,
    },
    /// `cat`: the ranges of addresses with the same label.
    Cat {
        labels: LabelFile<'a>,
    },
    /// `shrink`: a shortest prefix list that labels every address as the map does, or its certificate.
    Shrink {
        map: &'a str,
        printed: Shrunk,
    },
    /// `check`: whether a certificate shows that a list is a shortest one for a map.
    Check {
        map: &'a str,
        list: &'a str,
        certificate: &'a str,
    },
    /// `recert`: a certificate, compacted.
    Recert {
        certificate: &'a str,
    },
}

impl<'a> Command<'a> {
    /// Returns which inputs the command reads.
    pub fn needs(&self) -> ByFile<bool>
        ensures { result ≡ each is_some (files_of (request_of self.now)) }
    {
        let files = self.files();
        ByFile {
            map: files.map.is_some(),
            list: files.list.is_some(),
            certificate: files.certificate.is_some(),
            flows: files.flows.is_some(),
        }
    }

    /// Returns the names of the files that the command reads, one for each input that it needs.
    pub fn files(&self) -> ByFile<Option<&'a str>>
        ensures { names_of result ≡ files_of (request_of self.now) }
    {
        match self {
            Command::Label { labels, .. } => files_named(Some(*labels), None),
            Command::Info { flows } => files_named(None, Some(flows)),
            Command::Rows { labels, flows, .. } => files_named(*labels, Some(flows)),
            Command::Uniq { labels, flows, .. } => files_named(*labels, Some(flows)),
            Command::Cat { labels } => files_named(Some(*labels), None),
            Command::Shrink { map, .. } => files_named(Some(LabelFile::Map(map)), None),
            Command::Check {
                map,
                list,
                certificate,
            } => ByFile {
                map: Some(map),
                list: Some(list),
                certificate: Some(certificate),
                flows: None,
            },
            Command::Recert { certificate } => ByFile {
                certificate: Some(certificate),
                ..files_named(None, None)
            },
        }
    }
}
