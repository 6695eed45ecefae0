//! The files that transcripts name.
ghost use Rattle.std.specs.Prelude.{◌≡◌, option_map};
ghost use Rattle.kapi_transcripts.specs.Files as files;
ghost use Rattle.kapi_transcripts.specs.Files.{only_text as only_text_of};

use kapi_text::{Sequence, Text};

/// A file by its name.
#[derive(Drop)]
pub struct NamedFile {
    pub name: Text,
    pub bytes: Sequence<u8>,
}

/// What a line of a transcript names, by the name that the line has: one text if it is a file, and one for each of its
/// files if it is a folder.
#[derive(Drop)]
pub struct LoadedFile {
    pub name: Text,
    pub texts: Sequence<Sequence<u8>>,
}

/// A transcript, and what its lines name, as far as it can be read.
#[derive(Drop)]
pub struct Transcript {
    pub file: NamedFile,
    pub loads: Sequence<LoadedFile>,
}

/// The first file of that name.
pub fn file_named<'a>(loads: &'a [LoadedFile], name: &[u8]) -> Option<&'a LoadedFile>
    ensures { option_map (λ f. f.now) result ≡ files.file_named loads.now name.now }
{
    loads
        .iter()
        .find(|file| file.name.as_str().as_bytes() == name)
}

/// The texts that a name stands for; none if it is not there.
pub fn texts_named<'a>(loads: &'a [LoadedFile], name: &[u8]) -> &'a [Sequence<u8>]
    ensures { result.now ≡ files.texts_named loads.now name.now }
{
    match file_named(loads, name) {
        Some(file) => file.texts.as_slice(),
        None => &[],
    }
}

/// The text, if there is one and no other.
pub fn only_text(texts: &[Sequence<u8>]) -> Option<&[u8]>
    ensures { option_map (λ s. s.now) result ≡ only_text_of texts.now }
{
    match texts {
        [text] => Some(text.as_slice()),
        _ => None,
    }
}
