//! How rows are written.

/// How rows are written.
#[derive(Clone, Copy, Debug, PartialEq, Eq)]
pub enum Format {
    /// As text, a line for each row.
    Text,
    /// As text, each row with its lines.
    Shown,
    /// As JSON, a line for each row.
    Json,
    /// As a JUnit report.
    Junit,
    /// As a page for a browser.
    Html,
}
