use crate::refusal::Refusal;
use client_events::Event;

/// What an item of a source is.
#[derive(Debug, Drop)]
pub enum Reading {
    /// An event.
    Line(Event),
    /// No event, for this reason.
    Refused(Refusal),
}
