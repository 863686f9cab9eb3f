/// The inputs of a run, part by part: files as their bytes, and texts as they were given.
#[derive(Clone, Copy)]
pub struct Parts<'a> {
    /// The universe file.
    pub universe: &'a [u8],
    /// The configuration file, if there is one.
    pub config: Option<&'a [u8]>,
    /// The file of silences, if there is one.
    pub silences: Option<&'a [u8]>,
    /// The file of alerts, if there is one.
    pub alerts: Option<&'a [u8]>,
    /// The text of the instant, if there is one.
    pub instant: Option<&'a str>,
    /// The text of the question.
    pub question: &'a str,
}
