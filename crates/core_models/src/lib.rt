//! Laws of the memory model that every run obeys: it is coherent and obeys its fences, and with a
//! fence between each two lines, or one tag, it is sequentially consistent.
#![tactic(auto)]

pub mod laws;
pub mod weak;
