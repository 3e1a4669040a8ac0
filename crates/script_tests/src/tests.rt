//! What no contract says: that the calls succeed where there is memory, on each kind of input, and
//! that what the definitions say of them is what was meant.

mod arguments;
mod captures;
mod scripts;
