use sheet_reader::Places;

/// A style rule that matches an element.
#[derive(Drop)]
pub struct Hit {
    /// The sheet's id.
    pub sheet: u64,
    /// The rule's place in the sheet, from 0.
    pub rule: usize,
    /// The places, in the rule's list, of the selectors that match, ascending, from 0.
    pub matching: Places,
}
