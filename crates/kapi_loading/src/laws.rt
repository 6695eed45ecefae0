//! A law of files, as clauses of a function that does nothing.
ghost use Rattle.kapi_loading.specs.Laws.{FileIsServed, FileIsUnopened};

/// The machine of a file has begun, loaded the file's objects and made turns: the laws of such machines hold of it,
/// and of what a server makes of it. No connection was opened on it.
pub fn a_file_makes_a_machine_of_the_laws()
    ensures served { FileIsServed }
    ensures unopened { FileIsUnopened }
{}
