// The chapter's record of three totals (document 02, U10), below Run and Exchange.
#![tactic(auto)]

pub mod listed;
pub mod moves;
pub mod nodes;

// Elements, hits and cells: C lends it by a pointer to three words.
#[repr(C)]
#[derive(Clone, Copy, Default)]
pub struct Totals {
    pub elements: u32,
    pub hits: u32,
    pub cells: u32,
}
