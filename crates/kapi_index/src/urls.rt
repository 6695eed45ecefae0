//! Entries of URLs, those with a star at their end as a case of their own.
ghost use Rattle.std.specs.Prelude.{◌≡◌, IfOk, map};
ghost use Rattle.std.specs.List.{list_any};
ghost use Rattle.kapi_index.specs.Compiled.{compiled_url, url_admits};

use kapi_rules::without_stars;
use kapi_text::{Memory, Sequence, Text, TryCopy};
use std::alloc::Global;

/// What an entry of URLs matches.
#[derive(Drop)]
pub enum Url {
    /// One path.
    Path(Text),
    /// Each path with this beginning. Stars at the end are left out.
    Front(Sequence<u8>),
}

fn copied(alloc: Global, bytes: &[u8]) -> Result<Sequence<u8>, Memory>
    ensures { IfOk result (λ s. s ≡ bytes.now) }
{
    let mut copied = Vec::new(alloc);
    copied.extend_from_slice(bytes)?;
    Ok(Sequence::new(copied))
}

fn compile_url(alloc: Global, entry: &Text) -> Result<Url, Memory>
    ensures { IfOk result (λ u. u ≡ compiled_url entry.now) }
{
    let bytes = entry.as_str().as_bytes();
    if bytes.ends_with(b"*") {
        return Ok(Url::Front(copied(alloc, without_stars(bytes))?));
    }
    Ok(Url::Path(entry.copy(alloc)?))
}

/// What entries of URLs match.
pub fn compile_urls(alloc: Global, entries: &[Text]) -> Result<Sequence<Url>, Memory>
    ensures { IfOk result (λ us. us ≡ map compiled_url entries.now) }
{
    let mut urls = Vec::new(alloc);
    for entry in entries {
        urls.push(compile_url(alloc, entry)?)?;
    }
    Ok(Sequence::new(urls))
}

fn admits(url: &Url, path: &str) -> bool
    ensures { result ≡ url_admits url.now path.now }
{
    match url {
        Url::Path(own) => own.as_str() == path,
        Url::Front(front) => path.as_bytes().starts_with(front.as_slice()),
    }
}

/// Whether some entry matches the path.
pub fn some_admits(urls: &[Url], path: &str) -> bool
    ensures { result ≡ list_any (λ u. url_admits u path.now) urls.now }
{
    urls.iter().any(|url| admits(url, path))
}
