//! What is wrong with a file of manifests, and where.
use kapi_text::Text;
use std::fmt;

/// Where an object begins: the number of its file, from 0, and of its line there, from 1.
#[derive(Clone, Copy, PartialEq, Eq)]
pub struct Origin {
    pub file: usize,
    pub line: usize,
}

/// Why what begins at a place of a file is no object that can be loaded.
#[derive(Drop)]
pub enum Reason {
    /// The file begins like YAML.
    Yaml,
    /// No JSON object begins here.
    Stray,
    /// The text of the object stops to be JSON at this line of the file and this column, both from 1.
    NotJson(usize, usize),
    /// The object is not closed.
    NotClosed,
    /// It is not plain which objects the document has: its `items` are no array, are named in another case, or have lists
    /// within lists within lists.
    Items,
    /// The object has no `apiVersion` or no `kind` that is a text.
    NoKind,
    /// The object, of this kind and name, names no namespace, and lives in one.
    NoNamespace(Text, Text),
}

/// What is wrong with what begins there.
#[derive(Drop)]
pub struct Fault {
    pub origin: Origin,
    pub reason: Reason,
}

impl fmt::Display for Reason {
    fn fmt<W: fmt::Write>(&self, f: &mut fmt::Formatter<W>) -> fmt::Result {
        match self {
            Reason::Yaml => f.write_str(
                "it begins like YAML, and JSON is read; 'tools/policy.py FILE..' makes JSON of it, as 'yq -o json FILE' does",
            ),
            Reason::Stray => f.write_str("no JSON object begins here"),
            Reason::NotJson(line, column) => {
                write!(
                    f,
                    "the object is no JSON: the fault is at line {line}, column {column}"
                )
            }
            Reason::NotClosed => f.write_str("the object that begins here is not closed"),
            Reason::Items => f.write_str(
                "kubectl takes a document with a member items for a list; they are no array, or named in another case, or nest too deep",
            ),
            Reason::NoKind => f.write_str("apiVersion and kind: required, each a text"),
            Reason::NoNamespace(kind, name) => {
                let kind = kind.as_str();
                let name = name.as_str();
                write!(
                    f,
                    "metadata.namespace: required of {kind} {name}; --namespace names one for all objects that name none"
                )
            }
        }
    }
}
