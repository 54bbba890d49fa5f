// Hits, and the order in which they stand: laws only, beside the type.
#![tactic(auto)]

// A record among the best of a scan: its number, and the score that it got.
#[derive(Clone, Copy)]
#[repr(C)]
pub struct Hit {
    pub number: u32,
    pub score: f32,
}
