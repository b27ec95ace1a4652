//! What a demand of a thread does, as data.
use cf_ids::Answer;
use cf_references::Flow;
use cf_state::Update;

/// What a demand does: its answer, its flow, what becomes of the parts, what it collects or gives out, and the thread
/// whose run it stops.
#[derive(Drop)]
pub struct Done {
    pub answer: Answer,
    pub flow: Flow,
    pub update: Update,
    pub list: Vec<u32>,
    pub stops: Option<usize>,
}
