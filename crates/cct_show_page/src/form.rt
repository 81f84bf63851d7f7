//! How much a page has.

/// What a page has, from the fullest form to the plainest one. A page is to be at most twice as
/// long as `text`, so that of a few lines leaves out what takes more bytes than they do.
#[derive(Clone, Copy, PartialEq, Eq)]
pub enum PageForm {
    /// All of it.
    Full,
    /// All but the picture.
    Unpictured,
    /// Sums, links, folds and rows, without colours and choices.
    Plain,
}

impl PageForm {
    /// All forms, the fullest one first.
    pub const ALL: [PageForm; 3] = [PageForm::Full, PageForm::Unpictured, PageForm::Plain];
}
