//! What `bkproof` does.

/// What the program does, a variant a verb. Files are named as the words name them.
#[derive(Clone, Copy)]
pub enum Task<'a> {
    /// After so many rules, or after all.
    Goal {
        project: &'a str,
        name: &'a str,
        at: Option<usize>,
    },
    List {
        project: &'a str,
        is_open_only: bool,
        as_json: bool,
    },
    /// Of a project, or of an image, and calls.
    Explain {
        file: &'a str,
        calls: Option<&'a str>,
        is_image: bool,
    },
    Prune {
        project: &'a str,
        file: &'a str,
    },
    Report {
        project: &'a str,
        form: ReportForm,
    },
    /// The text of `--help`.
    Help,
    /// The man page.
    ManPage,
}

/// How a report is written.
#[derive(Clone, Copy, PartialEq, Eq, Debug)]
pub enum ReportForm {
    Text,
    Json,
    Html,
}
