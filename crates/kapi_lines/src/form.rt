/// How an answer is printed.
#[derive(Clone, Copy, PartialEq, Eq)]
pub enum Form {
    /// Columns for people.
    Table,
    /// A table in Markdown, as pull requests show it.
    Markdown,
    /// A JSON object a line.
    Json,
}
