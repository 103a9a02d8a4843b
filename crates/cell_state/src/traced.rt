use rapid_model::{At, Event};

/// An event, and the place of the last Look that its task had asked by then: that of the event itself if it is a Look.
/// None before the first Look, and for the input script.
#[derive(Drop)]
pub struct Traced {
    pub event: Event,
    pub place: Option<At>,
}
