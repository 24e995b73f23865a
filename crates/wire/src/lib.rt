// Numbers on lent bytes, read and written; knows nothing of packs.
#![tactic(auto, unfolding(crate::specs::Answer::bind, crate::specs::Answer::guard, crate::specs::Answer::byte, crate::specs::Answer::u16, crate::specs::Answer::u32, crate::specs::Answer::u64, crate::specs::Answer::below, crate::specs::Answer::index, crate::specs::Code::read_of, crate::specs::Code::skip, crate::specs::Code::checked_of))]

pub mod answer; // what reading answers
pub mod number; // numbers, lowest byte first
pub mod writer; // a bounded writer on two lent buffers
