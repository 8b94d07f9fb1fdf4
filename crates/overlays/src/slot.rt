use value_model::Document;

/// A place of the table of overlays.
#[derive(Debug, Drop)]
pub enum Slot {
    /// Made for an overlay that isn't there yet.
    Reserved,
    /// The key's document, or that there is none.
    Laid(Option<Document>),
}
